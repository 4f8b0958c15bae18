// A C program's shift: each exported function called as C calls it, and all of them in one list, with what is known then.
#![tactic(auto)]

pub mod shift;

ghost use Rattle.machine.specs.Calls.{buffers};
ghost use Rattle.call_contract.specs.Made.{memory};
ghost use Rattle.c_history.specs.Lists.{CRun};
ghost use Rattle.c_shift.specs.Shift.{slices, shelf_events, clear_events, sweep_events, replay_events, weigh_events, shift_events, Concluded};

// What the calls on objects returned.
#[derive(Clone, Copy)]
pub struct Shelf {
    pub put: u32,
    pub got: u32,
    pub head: u32,
    pub copied: u32,
    pub listed: u32,
    pub deleted: u32,
}

// What the calls on an upload returned.
#[derive(Clone, Copy)]
pub struct Weighed {
    pub opened: u32,
    pub sent: u32,
    pub listed: u32,
    pub committed: u32,
    pub aborted: u32,
}

// PUT, GET, HEAD, COPY, LIST, DELETE; the second answer buffers of GET and HEAD are for the pairs.
pub fn shelve(
    tables: &mut [u8],
    arena: &mut [u8],
    stamp: u64,
    path: &[u8],
    content: &[u8],
    pairs: &[u8],
    other: &[u8],
    answer: &mut [u8],
    answer_pairs: &mut [u8],
    found: &mut [u8],
    head_pairs: &mut [u8],
    about: &mut [u8],
    listing: &mut [u8],
    counts: &mut [u8],
) -> Shelf
    ensures { CRun
        (shelf_events stamp path.now content.now pairs.now other.now result
        (buffers answer.old answer_pairs.old)
        found.old head_pairs.old about.old listing.old counts.old
        (buffers answer.new answer_pairs.new)
        found.new head_pairs.new about.new listing.new counts.new)
        (memory tables.old arena.old)
        (memory tables.new arena.new) }
{
    let put = rathnodi::objects::rathnodi_put(tables, arena, stamp, path, content, pairs);
    let got = rathnodi::objects::rathnodi_get(tables, arena, path, answer, answer_pairs, found);
    let head = rathnodi::objects::rathnodi_head(tables, arena, path, head_pairs, about);
    let copied = rathnodi::objects::rathnodi_copy(tables, arena, stamp, path, other);
    let listed = rathnodi::objects::rathnodi_list(tables, arena, path, other, listing, counts);
    let deleted = rathnodi::objects::rathnodi_delete(tables, arena, path);
    Shelf {
        put,
        got,
        head,
        copied,
        listed,
        deleted,
    }
}

// DELETE_OBJECTS.
pub fn clear(
    tables: &mut [u8],
    arena: &mut [u8],
    names: &[u8],
    places: &[u8],
    results: &mut [u8],
) -> u32
    ensures { CRun
        (clear_events names.now places.now result results.old results.new)
        (memory tables.old arena.old)
        (memory tables.new arena.new) }
{
    rathnodi::objects::rathnodi_delete_objects(tables, arena, names, places, results)
}

// SWEEP.
pub fn sweep(tables: &mut [u8], arena: &mut [u8], stamp: u64, most: u32, reply: &mut [u8]) -> u32
    ensures { CRun
        (sweep_events stamp most result reply.old reply.new)
        (memory tables.old arena.old)
        (memory tables.new arena.new) }
{
    rathnodi::uploads::rathnodi_sweep(tables, arena, stamp, most, reply)
}

// A line replayed.
pub fn replay(
    tables: &mut [u8],
    arena: &mut [u8],
    line: &[u8],
    answer: &mut [u8],
    pairs: &mut [u8],
    reply: &mut [u8],
) -> u32
    ensures { CRun
        (replay_events line.now result
        (buffers answer.old pairs.old) reply.old
        (buffers answer.new pairs.new) reply.new)
        (memory tables.old arena.old)
        (memory tables.new arena.new) }
{
    rathnodi::recordings::rathnodi_replay_line(tables, arena, line, answer, pairs, reply)
}

// INITIATE, PART, UPLOADS, COMMIT, ABORT.
fn weigh(
    tables: &mut [u8],
    arena: &mut [u8],
    stamp: u64,
    path: &[u8],
    pairs: &[u8],
    content: &[u8],
    list: &[u8],
    opened: &mut [u8],
    sent: &mut [u8],
    answer: &mut [u8],
    counts: &mut [u8],
) -> Weighed
    ensures { CRun
        (weigh_events stamp path.now pairs.now content.now list.now result
        opened.old sent.old answer.old counts.old
        opened.new sent.new answer.new counts.new)
        (memory tables.old arena.old)
        (memory tables.new arena.new) }
{
    let first = rathnodi::uploads::rathnodi_initiate(tables, arena, stamp, path, pairs, opened);
    let second = rathnodi::uploads::rathnodi_part(tables, arena, 1, 1, content, sent);
    let listed = rathnodi::uploads::rathnodi_uploads(tables, arena, path, answer, counts);
    let committed = rathnodi::uploads::rathnodi_commit(tables, arena, 1, list);
    let aborted = rathnodi::uploads::rathnodi_abort(tables, arena, 1);
    Weighed {
        opened: first,
        sent: second,
        listed,
        committed,
        aborted,
    }
}

// What the calls of a shift returned.
#[derive(Clone, Copy)]
pub struct Returned {
    pub shelf: Shelf,
    pub cleared: u32,
    pub weighed: Weighed,
    pub swept: u32,
}

// FRESH, then every call one time: what they returned, or FRESH's refusal.
pub fn fresh_shift(
    tables: &mut [u8],
    arena: &mut [u8],
    stamp: u64,
    path: &[u8],
    content: &[u8],
    pairs: &[u8],
    other: &[u8],
    names: &[u8],
    places: &[u8],
    list: &[u8],
    most: u32,
    answer: &mut [u8],
    answer_pairs: &mut [u8],
    found: &mut [u8],
    head_pairs: &mut [u8],
    about: &mut [u8],
    listing: &mut [u8],
    counts: &mut [u8],
    results: &mut [u8],
    opened: &mut [u8],
    sent: &mut [u8],
    uploads: &mut [u8],
    upload_counts: &mut [u8],
    swept: &mut [u8],
) -> Result<Returned, u32>
    ensures { Concluded
        (memory tables.old arena.old)
        (shift_events stamp path.now content.now pairs.now other.now
        names.now places.now list.now most)
        result
        (slices (buffers answer.old answer_pairs.old)
        found.old head_pairs.old about.old listing.old counts.old
        results.old opened.old sent.old uploads.old upload_counts.old
        swept.old)
        (slices (buffers answer.new answer_pairs.new)
        found.new head_pairs.new about.new listing.new counts.new
        results.new opened.new sent.new uploads.new upload_counts.new
        swept.new)
        (memory tables.new arena.new) }
{
    let n = rathnodi::fresh::rathnodi_fresh(tables, arena);
    if n != 0 {
        return Err(n);
    }
    let shelf = shelve(
        tables,
        arena,
        stamp,
        path,
        content,
        pairs,
        other,
        answer,
        answer_pairs,
        found,
        head_pairs,
        about,
        listing,
        counts,
    );
    let cleared = clear(tables, arena, names, places, results);
    let weighed = weigh(
        tables,
        arena,
        stamp,
        path,
        pairs,
        content,
        list,
        opened,
        sent,
        uploads,
        upload_counts,
    );
    let last = sweep(tables, arena, stamp, most, swept);
    Ok(Returned {
        shelf,
        cleared,
        weighed,
        swept: last,
    })
}
