use floyd_assert_trees::Assertion;
use floyd_clight::BlockList;
use floyd_ctypes::CType;
use floyd_text::Shared;
use floyd_tree::Term;

/// What must hold where statements are left in one way.
pub enum Exit {
    /// They may not be left so.
    None,
    To(Shared<Assertion>),
    /// The end of the function.
    End,
}

impl Drop for Exit {
    fn drop(self) {
        match self {
            Exit::None => {}
            Exit::To(assertion) => drop(assertion),
            Exit::End => {}
        }
    }
}

/// What must hold where the function returns.
pub struct Return {
    pub post: Shared<Assertion>,
    /// The term of the result, under the existentials of `post`, unless the function is void.
    pub value: Option<Term>,
    /// The type of the result.
    pub result: CType,
    /// The local variables that have a block.
    pub blocks: Shared<BlockList>,
}

impl Drop for Return {
    fn drop(self) {
        let Return {
            post,
            value,
            result,
            blocks,
        } = self;
        drop(post);
        drop(value);
        drop(result);
        drop(blocks);
    }
}

/// What must hold where statements are left.
pub struct Exits {
    pub normal: Exit,
    pub brk: Exit,
    pub cont: Exit,
    pub ret: Return,
}

impl Drop for Exits {
    fn drop(self) {
        let Exits {
            normal,
            brk,
            cont,
            ret,
        } = self;
        drop(normal);
        drop(brk);
        drop(cont);
        drop(ret);
    }
}
