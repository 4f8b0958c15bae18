// What the answer of each call tells.
ghost use Rattle.std.specs.Prelude.{◌≡◌, refl};
ghost use Rattle.machine.specs.Names.{Bytes};
ghost use Rattle.machine.specs.Calls.{Answer, etag, number, counts, swept};
ghost use Rattle.call_contract.specs.Answers.{etag_of, metadata_of};
ghost use Rattle.c_reply.specs.Reply.{reply_bytes, reply_over};
ghost use Rattle.c_reply.specs.Fields.{bytes_of_fields};

use crate::fields::Fields;
use call_types::{Counts, Etag, Metadata, Sweep, UploadNumber};

// An answer that has fields in the reply.
pub trait Told: Copy {
    ghost told: { Self → Answer };

    // Its fields.
    fn fields(self) -> Fields
        ensures { bytes_of_fields result ≡ reply_bytes (told self) };

    // It is something: a reply that held o is written.
    ghost is_told: { (x : Self) (o : Bytes) → reply_over (told x) o ≡ reply_bytes (told x) };
}

// GET and HEAD.
impl Told for Metadata {
    ghost told = { metadata_of };

    ghost is_told = { λ x o. refl };

    #[tactic(auto, unfolding(crate::specs::Reply::reply_bytes))]
    fn fields(self) -> Fields {
        let created = self.created;
        Fields {
            created: created.0,
            size: self.length,
            etag: self.etag,
            pairs: self.pairs,
            pairsize: self.bytes,
            ..Fields::NONE
        }
    }
}

// PART.
impl Told for Etag {
    ghost told = { λ e. etag (etag_of e) };

    ghost is_told = { λ x o. refl };

    #[tactic(auto, unfolding(crate::specs::Reply::reply_bytes))]
    fn fields(self) -> Fields {
        Fields {
            etag: self,
            ..Fields::NONE
        }
    }
}

// INITIATE.
impl Told for UploadNumber {
    ghost told = { λ u. number u.0 };

    ghost is_told = { λ x o. refl };

    #[tactic(auto, unfolding(crate::specs::Reply::reply_bytes))]
    fn fields(self) -> Fields {
        Fields {
            upload: self.0,
            ..Fields::NONE
        }
    }
}

// LIST and UPLOADS.
impl Told for Counts {
    ghost told = { λ c. counts c.records c.bytes };

    ghost is_told = { λ x o. refl };

    #[tactic(auto, unfolding(crate::specs::Reply::reply_bytes))]
    fn fields(self) -> Fields {
        Fields {
            records: self.records,
            bytes: self.bytes,
            ..Fields::NONE
        }
    }
}

// SWEEP: its count stands in the records' place.
impl Told for Sweep {
    ghost told = { λ s. swept s.count s.more };

    ghost is_told = { λ x o. refl };

    #[tactic(auto, unfolding(crate::specs::Reply::reply_bytes))]
    fn fields(self) -> Fields {
        Fields {
            records: self.count,
            more: self.more,
            ..Fields::NONE
        }
    }
}
