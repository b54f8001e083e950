//! Readers of the operators before an operand.
ghost use Rattle.std.specs.Prelude.{◌≤◌, ◌+◌};
ghost use Rattle.floyd_termread_sorts.specs.SortClauses.{quantified};
ghost use Rattle.floyd_grammar.specs.GivesClauses.{Gives};
ghost use Rattle.floyd_termread_grammar.specs.TermClauses as r;
ghost use Rattle.floyd_termread_grammar.specs.TermClauses.{nested};

use crate::build_terms::{no_prefixes, plus_prefix};
use crate::take_terms::{leads_prefix, take_prefix};
use crate::values::Prefixes;
use floyd_grammar::Stop;
use floyd_termread_sorts::read_quantified;
use floyd_termread_tables::{PrefixStart, Want};
use floyd_termread_tokens::Reader;
use floyd_termread_trees::{Binder, Prefix};
use sqlite_items::Items;
use std::alloc::Global;

fn read_binders(
    alloc: Global,
    reader: &mut Reader<'_>,
    room: u32,
    all: &Prefixes,
) -> Result<Items<Binder>, Stop>
    requires { room ≤ 200 }
    ensures { Gives result reader.new (quantified room all.now.count (all.now.count + all.now.run + 1) reader.old) }
{
    let depth = all.count as u64 + all.run as u64 + 1;
    read_quantified(alloc, reader, room, all.count, depth)
}

#[tactic(auto, unfolding(crate::specs::TermClauses::one_prefix, crate::specs::TermClauses::after_prefix))]
fn read_prefix(
    alloc: Global,
    reader: &mut Reader<'_>,
    room: u32,
    all: &Prefixes,
) -> Result<Prefix, Stop>
    requires { room ≤ 200 }
    ensures { Gives result reader.new (r.one_prefix room (nested room) all.now reader.old) }
{
    match take_prefix(reader, room, all)? {
        PrefixStart::Minus(place) => Ok(Prefix::Minus(place)),
        PrefixStart::Not(place) => Ok(Prefix::Not(place)),
        PrefixStart::Forall(place) => {
            let binders = read_binders(alloc, reader, room, all)?;
            Ok(Prefix::Forall(place, binders))
        }
        PrefixStart::Exists(place) => {
            let binders = read_binders(alloc, reader, room, all)?;
            Ok(Prefix::Exists(place, binders))
        }
    }
}

#[tactic(auto, unfolding(crate::specs::TermClauses::prefixes))]
pub(crate) fn read_prefixes(
    alloc: Global,
    reader: &mut Reader<'_>,
    room: u32,
    want: Want,
    count: u32,
) -> Result<Prefixes, Stop>
    requires { room ≤ 200 }
    ensures { Gives result reader.new (r.prefixes room (nested room) want count reader.old) }
{
    let mut all = no_prefixes(alloc, want, count);
    'each: while leads_prefix(reader, &all) {
        let prefix = read_prefix(alloc, reader, room, &all)?;
        all = plus_prefix(all, prefix)?;
    }
    Ok(all)
}
