// What the core says of itself, of the first bytes of the memory as a state, and of outgoing bytes.
use crate::bases::put;
use crate::bench::Bench;
use scripts::Row;

// The next message's length in the outgoing bytes from one place up to another.
fn next_length(row: &Row<'_>, out: &[u8]) -> Option<u64> {
    let [n, s, from, upto, ..] = row.numbers;
    let bytes = out.get(from as usize..upto as usize)?;
    Some(replica::jallumere_message_length(n, s, bytes))
}

// A field, a view or an entry's field that a state says.
fn said(row: &Row<'_>, memory: &[u8]) -> Option<u64> {
    let [n, s, c, length, number, field] = row.numbers;
    let state = memory.get(..length as usize)?;
    match row.asks {
        'f' => Some(replica::jallumere_field(n, s, c, number, state)),
        'v' => Some(replica::jallumere_group_view(n, s, c, number, state)),
        'e' => Some(replica::jallumere_entry(n, s, c, number, field, state)),
        _ => None,
    }
}

// The number at a place of the memory, of 4 or 8 bytes.
fn look(at: u64, width: u64, memory: &[u8]) -> Option<u64> {
    match width {
        4 => Some(u64::from(octets::look32(memory, at as usize))),
        8 => Some(octets::look64(memory, at as usize)),
        _ => None,
    }
}

// What a row asks.
pub fn ask(row: &Row<'_>, bench: &mut Bench<'_>) -> Option<u64> {
    let [at, width, value, ..] = row.numbers;
    match row.asks {
        'f' | 'v' | 'e' => said(row, bench.memory),
        'n' => next_length(row, bench.out),
        'r' => look(at, width, bench.memory),
        'p' => put(bench.memory, at as usize, width, value).map(|()| 0),
        'x' => put(bench.out, at as usize, width, value).map(|()| 0),
        'i' => Some(replica::jallumere_version()),
        'm' => Some(replica::jallumere_is_model()),
        _ => bench.ask(row),
    }
}
