ghost use Rattle.std.specs.Prelude.{◌≡◌};
ghost use Rattle.floyd_clight_typing.specs.Expressions.{is_place as is_place_lem};
ghost use Rattle.floyd_forward.specs.Set.{is_read as is_read_lem};

use floyd_clight::Expr;
use floyd_memval::chunk_of;

/// Whether the expression stands for an object or a function.
fn is_place(e: &Expr) -> bool
    ensures { result ≡ is_place_lem e.now }
{
    match e {
        Expr::Var(_, _, _) => true,
        Expr::Deref(_, _) => true,
        Expr::Field(_, _, _) => true,
        Expr::Const(_, _) => false,
        Expr::Temp(_, _) => false,
        Expr::AddrOf(_, _) => false,
        Expr::Unary(_, _, _) => false,
        Expr::Binary(_, _, _, _) => false,
        Expr::Cast(_, _) => false,
        Expr::SizeOf(_, _) => false,
    }
}

/// Whether the expression is a number or a pointer in memory.
pub(crate) fn is_read(e: &Expr) -> bool
    ensures { result ≡ is_read_lem e.now }
{
    is_place(e) && chunk_of(e.ctype()).is_some()
}
