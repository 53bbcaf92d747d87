ghost use Rattle.std.specs.Prelude.{◌≡◌, true, length, Some as some, MatchResult};
ghost use Rattle.systems.specs.declared.rooms.OutlineFault.TheVariants.{TooShort as too_short};
ghost use Rattle.systems.specs.Opening.{of_opening, small, lent, opening, opening_setup, StoreOpened, Opened, SetupOpened};

use crate::setup::Setup;
use crate::store::Store;
use crate::valued::Valued;
use field::Field;
use relations::{Layer, Reason, Refusal};
use std::marker::PhantomData;
use written::writer::TooShort;

// A type of its own beside `Counts` and `Mark`: it speaks of terms where they speak of combinations, and a `Mark` has to be spent.
/// How much of each a system takes.
#[derive(Clone, Copy)]
pub struct Rooms {
    pub inputs: u32,
    pub witnesses: u32,
    pub terms: u32,
    pub rows: u32,
}

/// How much of each a system holds.
#[derive(Clone, Copy)]
pub struct Counts {
    pub inputs: usize,
    pub witnesses: usize,
    pub combinations: usize,
    pub rows: usize,
}

/// Why a system is not opened: a room is above 65,536, or the lent words are too few for the rooms.
#[derive(Clone, Copy)]
pub enum OpenFault {
    RoomTooLarge,
    ShortValues,
    ShortTerms,
    ShortRows,
}

/// Why one of the sums of a row is not written out: there is no such row, or too few words to write it into.
#[derive(Clone, Copy)]
pub enum OutlineFault {
    NoSuchRow,
    TooShort,
}

impl From<TooShort> for OutlineFault {
    ghost from_gives = { λ _ r. r ≡ too_short };

    fn from(fault: TooShort) -> OutlineFault {
        OutlineFault::TooShort
    }
}

impl From<OpenFault> for Refusal {
    ghost from_gives = { λ f r. r ≡ of_opening f };

    fn from(fault: OpenFault) -> Refusal {
        let reason = match fault {
            OpenFault::RoomTooLarge => Reason::Length,
            OpenFault::ShortValues => Reason::VariablesFull,
            OpenFault::ShortTerms => Reason::TermsFull,
            OpenFault::ShortRows => Reason::RowsFull,
        };
        Refusal::new(reason, Layer::System)
    }
}

/// Whether no room is above 65,536.
fn small(rooms: Rooms) -> bool
    ensures { result ≡ small rooms }
{
    rooms.inputs <= 65536 && rooms.witnesses <= 65536 && rooms.terms <= 65536 && rooms.rows <= 65536
}

/// An empty store over lent words, if they are enough for the rooms.
fn lay<'a>(
    modulus: u32,
    rooms: Rooms,
    terms: &'a mut [u32],
    rows: &'a mut [u32],
) -> Result<Store<'a>, OpenFault>
    requires { small rooms ≡ true }
    ensures { MatchResult result (StoreOpened modulus rooms terms.old rows.old) (λ e. lent rooms (length terms.old) (length rows.old) ≡ some e) }
{
    let (term_room, row_room) = (rooms.terms as usize, rooms.rows as usize);
    if terms.len() < 2 * term_room {
        return Err(OpenFault::ShortTerms);
    }
    if rows.len() < 6 * row_room {
        return Err(OpenFault::ShortRows);
    }
    Ok(Store {
        rows,
        terms,
        modulus,
        inputs: 0,
        witnesses: 0,
        combinations: 0,
        count: 0,
        front: 0,
        back: term_room,
        input_room: rooms.inputs as usize,
        witness_room: rooms.witnesses as usize,
        term_room,
        row_room,
    })
}

// Three slices, since the memory of a system is lent.
/// Opens an empty system over lent words, if no room is above 65,536 and the words are enough for the rooms.
pub fn open<'a, F: Field>(
    rooms: Rooms,
    values: &'a mut [u32],
    terms: &'a mut [u32],
    rows: &'a mut [u32],
) -> Result<Valued<'a, F>, OpenFault>
    ensures { MatchResult result (Opened F.Field.modulus rooms values.old terms.old rows.old) (λ e. opening rooms (length values.old) (length terms.old) (length rows.old) ≡ some e) }
{
    if !small(rooms) {
        return Err(OpenFault::RoomTooLarge);
    }
    if values.len() < rooms.inputs as usize + rooms.witnesses as usize {
        return Err(OpenFault::ShortValues);
    }
    let store = lay(F::characteristic(), rooms, terms, rows)?;
    Ok(Valued {
        store,
        values,
        of: PhantomData,
    })
}

/// Opens an empty system that keeps no values over lent words, if no room is above 65,536 and the words are enough for the rooms.
pub fn open_setup<'a, F: Field>(
    rooms: Rooms,
    terms: &'a mut [u32],
    rows: &'a mut [u32],
) -> Result<Setup<'a, F>, OpenFault>
    ensures { MatchResult result (SetupOpened F.Field.modulus rooms terms.old rows.old) (λ e. opening_setup rooms (length terms.old) (length rows.old) ≡ some e) }
{
    if !small(rooms) {
        return Err(OpenFault::RoomTooLarge);
    }
    let store = lay(F::characteristic(), rooms, terms, rows)?;
    Ok(Setup {
        store,
        of: PhantomData,
    })
}
