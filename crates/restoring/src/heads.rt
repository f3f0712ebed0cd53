// A generation's head, as a dump tells it, with a second that is computed once for a generation. That it is the second of the bucket is
// a fact in contracts (`Suits`): a head has no settings to say it by.
use model::{Bucket, Class, Second};

#[derive(Clone, Copy)]
pub struct Head {
    pub class: Class,
    pub bucket: Bucket,
    pub newest: u64,
    // The second in which its shares end.
    pub second: Second,
}
