use floyd_int::IntKind;
use floyd_text::{Name, Place};
use sqlite_items::{Boxed, Items};

/// A name where it stands.
pub struct Identifier {
    pub name: Name,
    pub place: Place,
}

impl Drop for Identifier {
    fn drop(self) {
        let Identifier { name, place: _ } = self;
        drop(name);
    }
}

/// An integer or character constant where it stands, of one of the kinds int, unsigned, long and unsigned long.
#[derive(Clone, Copy)]
pub struct Literal {
    pub kind: IntKind,
    pub value: u64,
    pub place: Place,
}

/// What a declaration begins with: its base, and where `const` stands first beside it.
#[cycle(types)]
pub struct Specifiers {
    pub constant: Option<Place>,
    pub base: Base,
}

impl Drop for Specifiers {
    #[cycle(drop)]
    fn drop(self) {
        let Specifiers { constant: _, base } = self;
        drop(base);
    }
}

#[cycle(types)]
pub enum Base {
    Void,
    /// The words of an integer type. `long long` is `long`.
    Int(IntKind),
    /// A struct by its tag.
    Struct(Identifier),
    /// A struct by its tag, with its fields.
    StructWith(Identifier, Items<FieldDeclaration>),
    Typedef(Identifier),
}

impl Drop for Base {
    #[cycle(drop)]
    fn drop(self) {
        match self {
            Base::Void => {}
            Base::Int(_) => {}
            Base::Struct(identifier) => drop(identifier),
            Base::StructWith(identifier, field_declarations) => {
                drop(identifier);
                drop(field_declarations);
            }
            Base::Typedef(identifier) => drop(identifier),
        }
    }
}

/// Fields of one base.
#[cycle(types)]
pub struct FieldDeclaration {
    pub specifiers: Specifiers,
    pub declarators: Items<Declarator>,
}

impl Drop for FieldDeclaration {
    #[cycle(drop)]
    fn drop(self) {
        let FieldDeclaration {
            specifiers,
            declarators,
        } = self;
        drop(specifiers);
        drop(declarators);
    }
}

/// A declarator as it is written, from the outside in: what stands last in `Pointer`, `Array` and `Function` is nearer
/// to the name.
#[cycle(types)]
pub enum Declarator {
    Name(Identifier),
    /// No name, in a parameter or a type name.
    Absent,
    Parenthesised {
        place: Place,
        inner: Boxed<Declarator>,
    },
    /// Stars, at least one, the first of which is the outermost.
    Pointer {
        stars: Items<Star>,
        inner: Boxed<Declarator>,
    },
    /// An array with the place of its bracket. Only a parameter may have no size.
    Array {
        inner: Boxed<Declarator>,
        place: Place,
        size: Option<Literal>,
    },
    /// A function with the place of its parenthesis. `()` and `(void)` have no parameters.
    Function {
        inner: Boxed<Declarator>,
        place: Place,
        parameters: Items<Parameter>,
    },
}

impl Drop for Declarator {
    #[cycle(drop)]
    fn drop(self) {
        match self {
            Declarator::Name(identifier) => drop(identifier),
            Declarator::Absent => {}
            Declarator::Parenthesised { place: _, inner } => drop(inner),
            Declarator::Pointer { stars, inner } => {
                drop(stars);
                drop(inner);
            }
            Declarator::Array {
                inner,
                place: _,
                size,
            } => {
                drop(inner);
                drop(size);
            }
            Declarator::Function {
                inner,
                place: _,
                parameters,
            } => {
                drop(inner);
                drop(parameters);
            }
        }
    }
}

/// A star of a declarator, and where `const` stands first behind it.
#[derive(Clone, Copy)]
pub struct Star {
    pub place: Place,
    pub constant: Option<Place>,
}

#[cycle(types)]
pub struct Parameter {
    pub specifiers: Specifiers,
    pub declarator: Declarator,
}

impl Drop for Parameter {
    #[cycle(drop)]
    fn drop(self) {
        let Parameter {
            specifiers,
            declarator,
        } = self;
        drop(specifiers);
        drop(declarator);
    }
}

/// A type as a cast and `sizeof` have it, whose declarator has no name.
pub struct TypeName {
    pub specifiers: Specifiers,
    pub declarator: Declarator,
}

impl Drop for TypeName {
    fn drop(self) {
        let TypeName {
            specifiers,
            declarator,
        } = self;
        drop(specifiers);
        drop(declarator);
    }
}
