// Two systems over the same rooms, each over lent words.
use field::F101;
use std::alloc::{AllocError, Global};
use systems::{OpenFault, Rooms, Setup, Valued, open, open_setup};

/// The words that two systems of the same rooms are lent.
#[derive(Drop)]
pub(crate) struct Words {
    values: Vec<u32>,
    terms: Vec<u32>,
    rows: Vec<u32>,
    setup_terms: Vec<u32>,
    setup_rows: Vec<u32>,
}

/// Exactly as many words as the rooms ask for, none of them zero.
pub(crate) fn lend(heap: Global, rooms: Rooms) -> Result<Words, AllocError> {
    let sides = rooms.inputs as usize + rooms.witnesses as usize;
    let (terms, rows) = (rooms.terms as usize, rooms.rows as usize);
    Ok(Words {
        values: vec![in heap; 7; sides]?,
        terms: vec![in heap; 4; 2 * terms]?,
        rows: vec![in heap; 9; 6 * rows]?,
        setup_terms: vec![in heap; 12; 2 * terms]?,
        setup_rows: vec![in heap; 9; 6 * rows]?,
    })
}

/// The two systems.
pub(crate) fn both<'a>(
    rooms: Rooms,
    words: &'a mut Words,
) -> Result<(Valued<'a, F101>, Setup<'a, F101>), OpenFault> {
    let valued = open::<F101>(rooms, &mut words.values, &mut words.terms, &mut words.rows)?;
    let setup = open_setup::<F101>(rooms, &mut words.setup_terms, &mut words.setup_rows)?;
    Ok((valued, setup))
}
