// The core under C names: the functions of `replica` that hosts link. Each hands on what it is given, and its clauses are theirs. Every number is
// one of 64 bits, and a slice a pointer and a length.
#![tactic(auto)]

ghost use Rattle.replica.specs.Face.{given};
ghost use Rattle.digest.specs.Statements.{DigestsOn};
ghost use Rattle.fresh.specs.Statements.{Measures};
ghost use Rattle.readers.specs.Statements.{MeasuresFirst, TellsField, TellsView, TellsEntry};
ghost use Rattle.replica.specs.Statements.{StepsByNumber, Starts, Orders, Judges, Reads, Writes, IsVersion, IsCore};

// The version of the interface: major * 10000 + minor * 100 + patch.
#[unsafe(no_mangle)]
pub extern "C" fn jallumere_version() -> u64
    ensures { IsVersion result }
{
    replica::jallumere_version()
}

// 0: this is the proved core, and not the implementation that it is compared with.
#[unsafe(no_mangle)]
pub extern "C" fn jallumere_is_model() -> u64
    ensures { IsCore result }
{
    replica::jallumere_is_model()
}

// The state's length, 0 for wrong sizes.
#[unsafe(no_mangle)]
pub extern "C" fn jallumere_state_length(n: u64, s: u64, c: u64) -> u64
    ensures { Measures (record { n = n; s = s; c = c }) result }
{
    replica::jallumere_state_length(n, s, c)
}

// 0 and the fresh state's bytes, or 1 and all as it came.
#[unsafe(no_mangle)]
pub extern "C" fn jallumere_start(
    n: u64,
    s: u64,
    c: u64,
    group: u64,
    replica: u64,
    state: &mut [u8],
) -> u64
    ensures { Starts (record { n = n; s = s; c = c }) group replica state.old result state.new }
{
    replica::jallumere_start(n, s, c, group, replica, state)
}

// 0 and the older state's bytes with early in order, or 1 and all as it came where they are not those of a state good but for that order.
#[unsafe(no_mangle)]
pub extern "C" fn jallumere_order(n: u64, s: u64, c: u64, state: &mut [u8]) -> u64
    ensures { Orders (record { n = n; s = s; c = c }) state.old result state.new }
{
    replica::jallumere_order(n, s, c, state)
}

// One step: the number of the table, and 256 times the outgoing length or, with 2, the offset of the first wrong field.
#[unsafe(no_mangle)]
pub extern "C" fn jallumere_step(
    n: u64,
    s: u64,
    c: u64,
    state: &mut [u8],
    message: &[u8],
    out: &mut [u8],
) -> u64
    ensures { StepsByNumber (record { n = n; s = s; c = c }) state.old message.now out.old
        result state.new out.new }
{
    replica::jallumere_step(n, s, c, state, message, out)
}

// 0 where the bytes are those of a good state, else 1.
#[unsafe(no_mangle)]
pub extern "C" fn jallumere_good(n: u64, s: u64, c: u64, state: &[u8]) -> u64
    ensures { Judges (record { n = n; s = s; c = c }) state.now result }
{
    replica::jallumere_good(n, s, c, state)
}

// 0 for a message, 1 for wrong sizes, 2 for bytes that are none, and 256 times the offset of the first wrong field.
#[unsafe(no_mangle)]
pub extern "C" fn jallumere_read(n: u64, s: u64, message: &[u8]) -> u64
    ensures { Reads n s message.now result }
{
    replica::jallumere_read(n, s, message)
}

// The length of the message that the bytes begin with, 0 where they begin with none.
#[unsafe(no_mangle)]
pub extern "C" fn jallumere_message_length(n: u64, s: u64, bytes: &[u8]) -> u64
    ensures { MeasuresFirst n s bytes.now result }
{
    replica::jallumere_message_length(n, s, bytes)
}

// A field of the state by its number, or nothing.
#[unsafe(no_mangle)]
pub extern "C" fn jallumere_field(n: u64, s: u64, c: u64, field: u64, state: &[u8]) -> u64
    ensures { TellsField (record { n = n; s = s; c = c }) field state.now result }
{
    replica::jallumere_field(n, s, c, field, state)
}

// The view of a group in the state's gVec, or nothing.
#[unsafe(no_mangle)]
pub extern "C" fn jallumere_group_view(n: u64, s: u64, c: u64, group: u64, state: &[u8]) -> u64
    ensures { TellsView (record { n = n; s = s; c = c }) group state.now result }
{
    replica::jallumere_group_view(n, s, c, group, state)
}

// A field of the log's entry at a position, from 1 on, or nothing.
#[unsafe(no_mangle)]
pub extern "C" fn jallumere_entry(
    n: u64,
    s: u64,
    c: u64,
    position: u64,
    field: u64,
    state: &[u8],
) -> u64
    ensures { TellsEntry (record { n = n; s = s; c = c }) position field state.now result }
{
    replica::jallumere_entry(n, s, c, position, field, state)
}

// FNV-1a run on from `start`.
#[unsafe(no_mangle)]
pub extern "C" fn jallumere_digest(start: u64, bytes: &[u8]) -> u64
    ensures { DigestsOn start bytes.now result }
{
    replica::jallumere_digest(start, bytes)
}

// Writes the message of these fields: 0, 1, 2 or 9, and 256 times its length or, with 2, the offset of its first wrong field. The numbers are all
// that the kind has.
#[unsafe(no_mangle)]
pub extern "C" fn jallumere_write(
    n: u64,
    s: u64,
    kind: u64,
    to_group: u64,
    to_mask: u64,
    from_group: u64,
    from_replica: u64,
    view: u64,
    numbers: &[u64],
    views: &[u8],
    entries: &[u8],
    out: &mut [u8],
) -> u64
    ensures { let g = given kind to_group to_mask from_group from_replica view in
        Writes n s g numbers.now views.now entries.now out.old result out.new }
{
    replica::jallumere_write(
        n,
        s,
        kind,
        to_group,
        to_mask,
        from_group,
        from_replica,
        view,
        numbers,
        views,
        entries,
        out,
    )
}
