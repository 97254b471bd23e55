// The tasks of a table by itself: its spectra, and the table that a spectrum gives back.
use crate::{MAX_ENTRIES, listing, words};
use spectra::Kind;
use tables::MAX_TABLE_BYTES;

// The RM and the MRM spectrum of the table that the line gives.
pub fn list_spectra(rt: &impl Print, line: &[u8]) {
    let mut table = [0u8; MAX_TABLE_BYTES];
    let count = words::bytes(line, 3, &mut table);
    list_spectrum(rt, b"rm", line, &table[..count], Kind::Rm);
    list_spectrum(rt, b"mrm", line, &table[..count], Kind::Mrm);
}

fn list_spectrum(rt: &impl Print, word: &[u8], line: &[u8], table: &[u8], kind: Kind) {
    let inputs = words::decimal(line, 1);
    let polarity = words::decimal(line, 2);
    let mut numbers = [0u16; MAX_ENTRIES];
    match spectra::spectrum(inputs, table, kind, polarity, &mut numbers) {
        Ok(()) => listing::numbers(rt, word, &numbers, bits::table_size(inputs)),
        Err(cause) => listing::refusal(rt, cause),
    }
}

// The table of the spectrum that the line gives.
pub fn list_undone(rt: &impl Print, line: &[u8]) {
    let mut numbers = [0u16; MAX_ENTRIES];
    let count = words::decimals(line, 4, b' ', &mut numbers);
    list_table(rt, line, &numbers[..count]);
}

fn list_table(rt: &impl Print, line: &[u8], numbers: &[u16]) {
    let inputs = words::decimal(line, 2);
    let polarity = words::decimal(line, 3);
    let mut table = [0u8; MAX_TABLE_BYTES];
    match spectra::undo(inputs, numbers, words::kind(line), polarity, &mut table) {
        Ok(()) => listing::bytes(rt, b"table", &table, bits::table_bytes(inputs)),
        Err(cause) => listing::refusal(rt, cause),
    }
}
