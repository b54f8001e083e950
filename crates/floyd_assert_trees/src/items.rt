use crate::assertion::Assertion;
use crate::binder::BinderList;
use crate::pattern::Pattern;
use crate::table::{Names, Table};
use floyd_ctypes::StructTable;
use floyd_text::Place;
use floyd_tree::{Sort, Term};
use sqlite_items::Items;

/// Places in the order of their text.
pub type PlaceList = Items<Place>;

/// A case of a FUN.
pub struct FunCase {
    pub pattern: Pattern,
    pub term: Term,
}

impl Drop for FunCase {
    fn drop(self) {
        let FunCase { pattern, term } = self;
        drop(pattern);
        drop(term);
    }
}

/// Cases in order.
pub type FunCaseList = Items<FunCase>;

/// What a FUN stands for: a term, or a term for each constructor of its first argument.
pub enum FunBody {
    Whole(Term),
    Cases(FunCaseList),
}

impl Drop for FunBody {
    fn drop(self) {
        match self {
            FunBody::Whole(body) => drop(body),
            FunBody::Cases(cases) => drop(cases),
        }
    }
}

/// A user function. `place` is that of its name, `calls` are those of its calls of itself, and `module` is the number of
/// the module that has it.
pub struct Fun {
    pub place: Place,
    pub module: u32,
    pub arguments: BinderList,
    pub result: Sort,
    pub body: FunBody,
    pub calls: PlaceList,
}

impl Drop for Fun {
    fn drop(self) {
        let Fun {
            place: _,
            module: _,
            arguments,
            result,
            body,
            calls,
        } = self;
        drop(arguments);
        drop(result);
        drop(body);
        drop(calls);
    }
}

/// A case of a PRED.
pub struct PredCase {
    pub pattern: Pattern,
    pub body: Assertion,
}

impl Drop for PredCase {
    fn drop(self) {
        let PredCase { pattern, body } = self;
        drop(pattern);
        drop(body);
    }
}

/// Cases in order.
pub type PredCaseList = Items<PredCase>;

/// What a PRED stands for: an assertion, or one for each constructor of its first argument. It says nothing of
/// temporaries.
pub enum PredBody {
    Whole(Assertion),
    Cases(PredCaseList),
}

impl Drop for PredBody {
    fn drop(self) {
        match self {
            PredBody::Whole(body) => drop(body),
            PredBody::Cases(cases) => drop(cases),
        }
    }
}

/// A predicate, with places and the module as a FUN has them. One that is opaque is opened in its own module alone.
pub struct Pred {
    pub place: Place,
    pub module: u32,
    pub opaque: bool,
    pub arguments: BinderList,
    pub body: PredBody,
    pub calls: PlaceList,
}

impl Drop for Pred {
    fn drop(self) {
        let Pred {
            place: _,
            module: _,
            opaque: _,
            arguments,
            body,
            calls,
        } = self;
        drop(arguments);
        drop(body);
        drop(calls);
    }
}

/// A lemma: for all data for the variables of WITH the right side holds where the left one does. The left side has no
/// existentials, and neither says anything of temporaries.
pub struct Lemma {
    pub place: Place,
    pub module: u32,
    pub with: BinderList,
    pub left: Assertion,
    pub right: Assertion,
}

impl Drop for Lemma {
    fn drop(self) {
        let Lemma {
            place: _,
            module: _,
            with,
            left,
            right,
        } = self;
        drop(with);
        drop(left);
        drop(right);
    }
}

/// What the proofs of a module stand on: the structs, the names that `gv` may take, the FUNs, PREDs and lemmas in their
/// order, the names of the lemmas that are proved, and the number of the module whose proof is played.
pub struct Defs {
    pub structs: StructTable,
    pub globals: Names,
    pub funs: Table<Fun>,
    pub preds: Table<Pred>,
    pub lemmas: Table<Lemma>,
    pub proved: Names,
    pub home: u32,
}

impl Drop for Defs {
    fn drop(self) {
        let Defs {
            structs,
            globals,
            funs,
            preds,
            lemmas,
            proved,
            home: _,
        } = self;
        drop(structs);
        drop(globals);
        drop(funs);
        drop(preds);
        drop(lemmas);
        drop(proved);
    }
}
