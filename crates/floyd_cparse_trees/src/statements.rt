use crate::expressions::CExpr;
use crate::types::{Declarator, Literal, Specifiers};
use floyd_text::{Name, Place};
use sqlite_items::{Boxed, Items};

/// A declared local variable, with the place of its `=` and its right side.
pub struct LocalDeclarator {
    pub declarator: Declarator,
    pub initialiser: Option<(Place, CExpr)>,
}

impl Drop for LocalDeclarator {
    fn drop(self) {
        let LocalDeclarator {
            declarator,
            initialiser,
        } = self;
        drop(declarator);
        drop(initialiser);
    }
}

pub struct LocalDeclaration {
    pub specifiers: Specifiers,
    pub declarators: Items<LocalDeclarator>,
}

impl Drop for LocalDeclaration {
    fn drop(self) {
        let LocalDeclaration {
            specifiers,
            declarators,
        } = self;
        drop(specifiers);
        drop(declarators);
    }
}

#[cycle(statements)]
pub enum BlockItem {
    Declaration(LocalDeclaration),
    Statement(CStatement),
}

impl Drop for BlockItem {
    #[cycle(drop)]
    fn drop(self) {
        match self {
            BlockItem::Declaration(local_declaration) => drop(local_declaration),
            BlockItem::Statement(statement) => drop(statement),
        }
    }
}

/// A statement. `place` is that of its word, and of `while` in `do`.
#[cycle(statements)]
pub enum CStatement {
    Block(Items<BlockItem>),
    Empty,
    Effect(CExpr),
    If {
        place: Place,
        condition: CExpr,
        then: Boxed<CStatement>,
    },
    IfElse {
        place: Place,
        condition: CExpr,
        then: Boxed<CStatement>,
        otherwise: Boxed<CStatement>,
    },
    While {
        place: Place,
        condition: CExpr,
        body: Boxed<CStatement>,
    },
    Do {
        body: Boxed<CStatement>,
        place: Place,
        condition: CExpr,
    },
    For {
        place: Place,
        first: Option<CExpr>,
        condition: Option<CExpr>,
        third: Option<CExpr>,
        body: Boxed<CStatement>,
    },
    Switch {
        place: Place,
        value: CExpr,
        cases: Items<SwitchCase>,
    },
    Break,
    Continue,
    Return {
        place: Place,
        value: Option<CExpr>,
    },
}

impl Drop for CStatement {
    #[cycle(drop)]
    fn drop(self) {
        match self {
            CStatement::Block(block_items) => drop(block_items),
            CStatement::Empty => {}
            CStatement::Effect(expression) => drop(expression),
            CStatement::If {
                place: _,
                condition,
                then,
            } => {
                drop(condition);
                drop(then);
            }
            CStatement::IfElse {
                place: _,
                condition,
                then,
                otherwise,
            } => {
                drop(condition);
                drop(then);
                drop(otherwise);
            }
            CStatement::While {
                place: _,
                condition,
                body,
            } => {
                drop(condition);
                drop(body);
            }
            CStatement::Do {
                body,
                place: _,
                condition,
            } => {
                drop(body);
                drop(condition);
            }
            CStatement::For {
                place: _,
                first,
                condition,
                third,
                body,
            } => {
                drop(first);
                drop(condition);
                drop(third);
                drop(body);
            }
            CStatement::Switch {
                place: _,
                value,
                cases,
            } => {
                drop(value);
                drop(cases);
            }
            CStatement::Break => {}
            CStatement::Continue => {}
            CStatement::Return { place: _, value } => drop(value),
        }
    }
}

/// A label of `switch`.
pub enum SwitchLabel {
    /// The literal behind `case`, and its text. It is negative where `-` stands before it.
    Case {
        negative: bool,
        literal: Literal,
        text: Name,
    },
    /// `default`, with its place.
    Default(Place),
}

impl Drop for SwitchLabel {
    fn drop(self) {
        match self {
            SwitchLabel::Case {
                negative: _,
                literal: _,
                text,
            } => drop(text),
            SwitchLabel::Default(_) => {}
        }
    }
}

/// A label of `switch`, and the statements behind it up to the next label, as a block.
#[cycle(statements)]
pub struct SwitchCase {
    pub label: SwitchLabel,
    pub body: Boxed<CStatement>,
}

impl Drop for SwitchCase {
    #[cycle(drop)]
    fn drop(self) {
        let SwitchCase { label, body } = self;
        drop(label);
        drop(body);
    }
}
