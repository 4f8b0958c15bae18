// The verb that a line begins with.
ghost use Rattle.std.specs.Prelude.{◌≡◌};
ghost use Rattle.recording.specs.Parse.{verbs, verb_index};
ghost use Rattle.recording_read.specs.Verbs.{index_of};

// The verbs, in document 01's order.
#[derive(Clone, Copy)]
pub enum Verb {
    Put,
    Get,
    Head,
    Delete,
    Copy,
    List,
    Initiate,
    Part,
    Commit,
    Abort,
    Uploads,
}

impl Verb {
    // The verb, where the line begins with one.
    pub fn of(line: &[u8]) -> Option<Verb>
        ensures { index_of result ≡ verb_index verbs line.now }
    {
        if base_order::begins_with(line, b"(put") {
            return Some(Verb::Put);
        }
        if base_order::begins_with(line, b"(get") {
            return Some(Verb::Get);
        }
        if base_order::begins_with(line, b"(head") {
            return Some(Verb::Head);
        }
        if base_order::begins_with(line, b"(delete") {
            return Some(Verb::Delete);
        }
        if base_order::begins_with(line, b"(copy") {
            return Some(Verb::Copy);
        }
        if base_order::begins_with(line, b"(list") {
            return Some(Verb::List);
        }
        if base_order::begins_with(line, b"(initiate") {
            return Some(Verb::Initiate);
        }
        if base_order::begins_with(line, b"(part") {
            return Some(Verb::Part);
        }
        if base_order::begins_with(line, b"(commit") {
            return Some(Verb::Commit);
        }
        if base_order::begins_with(line, b"(abort") {
            return Some(Verb::Abort);
        }
        if base_order::begins_with(line, b"(uploads") {
            return Some(Verb::Uploads);
        }
        None
    }
}
