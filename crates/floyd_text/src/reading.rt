ghost use Rattle.std.specs.Prelude.{◌≡◌, ◌++◌, ◌<◌, ◌≤◌, ◌⊎◌, length, take, IfOk, IfErr, OnOk, OnErr};
ghost use Rattle.floyd_text.specs.Outside.{HasFile, HasNone, HasLonger, IsRead, PutsFile, PutsFront, Rose, max_file};

use crate::bytes::Bytes;
use crate::outside::{Found, Shelf, ShelfFault, Taker};
use std::alloc::{AllocError, Global};
use thiserror::Error;

/// The greatest number of bytes of a file that is read.
pub const MAX_FILE: usize = 4194304;

/// Why a file was not read.
#[derive(Clone, Copy, PartialEq, Eq, Debug, Error)]
pub enum ReadStop {
    #[error("there is no such file")]
    Missing,
    #[error("the file is too large")]
    TooLarge,
    #[error("the file could not be read")]
    Fault,
    #[error("out of memory")]
    Memory,
}

impl From<AllocError> for ReadStop {
    ghost use Rattle.floyd_text.specs.declared.reading.ReadStop.TheVariants.{Memory};

    ghost from_gives = { λ _ e. e ≡ Memory };

    fn from(_error: AllocError) -> ReadStop {
        ReadStop::Memory
    }
}

impl From<ShelfFault> for ReadStop {
    ghost use Rattle.floyd_text.specs.declared.reading.ReadStop.TheVariants.{Fault};

    ghost from_gives = { λ _ e. e ≡ Fault };

    fn from(_fault: ShelfFault) -> ReadStop {
        ReadStop::Fault
    }
}

/// The bytes of the file of that name. `MAX_FILE` bytes are the most that is read.
pub fn read_file<H: Shelf>(alloc: Global, shelf: &mut H, name: &str) -> Result<Bytes, ReadStop>
    ensures bytes { IfOk result (HasFile (H.held shelf.old) name.now) }
    ensures limit { IfOk result (λ bytes. length bytes ≤ max_file) }
    ensures missing { result ≡ Err ReadStop.Missing → HasNone (H.held shelf.old) name.now }
    ensures too_large { result ≡ Err ReadStop.TooLarge → HasLonger (H.held shelf.old) name.now max_file }
    ensures fault { result ≡ Err ReadStop.Fault → Rose (H.faults shelf.old) (H.faults shelf.new) }

    ensures held { H.held shelf.new ≡ H.held shelf.old }
    ensures later { H.faults shelf.old ≤ H.faults shelf.new }
{
    let mut all = Bytes::new(alloc);
    read_pieces(shelf, name, &mut all)?;
    Ok(all)
}

/// Puts the bytes of the file of that name where the taker keeps them, in pieces of a byte or more; `MAX_FILE` bytes are
/// the most that a file may have. After a refusal a front of them was put. Only the taker allocates.
#[tactic(auto, using(crate::proofs::OutsideLemmas::has_longer, crate::proofs::OutsideLemmas::has_start))]
pub fn read_pieces<H: Shelf, T: Taker>(
    shelf: &mut H,
    name: &str,
    into: &mut T,
) -> Result<(), ReadStop>
    ensures ok { OnOk result (PutsFile (H.held shelf.old) name.now (T.taken into.old) (T.taken into.new)) }
    ensures err { OnErr result (PutsFront (H.held shelf.old) name.now (T.taken into.old) (T.taken into.new)) }
    ensures origin { T.origin into.new ≡ T.origin into.old }
    ensures missing { result ≡ Err ReadStop.Missing → HasNone (H.held shelf.old) name.now }
    ensures too_large { result ≡ Err ReadStop.TooLarge → HasLonger (H.held shelf.old) name.now max_file }
    ensures fault { result ≡ Err ReadStop.Fault → Rose (H.faults shelf.old) (H.faults shelf.new) }

    ensures held { H.held shelf.new ≡ H.held shelf.old }
    ensures later { H.faults shelf.old ≤ H.faults shelf.new }
{
    match shelf.find(name)? {
        Found::Missing => return Err(ReadStop::Missing),
        Found::There => {}
    }
    let mut room = [0u8; 65536];
    let mut at = 0;
    'turn: for _turn in 0..MAX_FILE + 1 {
        let n = take_piece(shelf, name, at, into, &mut room)?;
        if n == 0 {
            return Ok(());
        }
        at += n as u64;
        if at > MAX_FILE as u64 {
            return Err(ReadStop::TooLarge);
        }
    }
    unreachable!()
}

/// Takes what stands from `at` on, a byte or more unless the file ends there, and answers how many there were.
fn take_piece<H: Shelf, T: Taker>(
    shelf: &mut H,
    name: &str,
    at: u64,
    into: &mut T,
    room: &mut [u8],
) -> Result<usize, ReadStop>
    requires room { 0 < length room.old }
    ensures bytes { IfOk result (λ n. IsRead (H.held shelf.old) name.now at (length room.old) n room.new) }
    ensures within { IfOk result (λ n. n ≤ length room.old) }
    ensures ok { IfOk result (λ n. T.taken into.new ≡ T.taken into.old ++ take n room.new) }
    ensures err { OnErr result (T.taken into.new ≡ T.taken into.old) }
    ensures origin { T.origin into.new ≡ T.origin into.old }
    ensures len { length room.new ≡ length room.old }
    ensures stop { IfErr result (λ stop. (stop ≡ ReadStop.Fault) ⊎ (stop ≡ ReadStop.Memory)) }
    ensures fault { result ≡ Err ReadStop.Fault → Rose (H.faults shelf.old) (H.faults shelf.new) }

    ensures held { H.held shelf.new ≡ H.held shelf.old }
    ensures later { H.faults shelf.old ≤ H.faults shelf.new }
{
    let n = shelf.read(name, at, room)?;
    into.take(&room[..n])?;
    Ok(n)
}
