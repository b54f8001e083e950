use floyd_text::Name;

/// What the first argument of a FUN or PRED is made of, with names for its parts.
pub enum Pattern {
    Nil,
    /// The first item, and the list of the others.
    Cons(Name, Name),
    Leaf,
    /// The left tree, the item and the right tree.
    Node(Name, Name, Name),
}

impl Drop for Pattern {
    fn drop(self) {
        match self {
            Pattern::Nil => {}
            Pattern::Cons(item, rest) => {
                drop(item);
                drop(rest);
            }
            Pattern::Leaf => {}
            Pattern::Node(left, item, right) => {
                drop(left);
                drop(item);
                drop(right);
            }
        }
    }
}
