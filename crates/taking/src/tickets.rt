// A ticket with what its register's settings say of it.
ghost use Rattle.std.specs.Prelude.{◌≡◌, ◌≤◌};
ghost use Rattle.model.specs.Numbers.{top32};
ghost use Rattle.model.specs.Class.{class_of};

use model::{Bucket, Class, Deliverer, Fingerprint, Second};

#[derive(Clone, Copy)]
pub struct Ticket {
    pub who: Deliverer,
    // The fingerprint as it is read, and the stamp.
    pub fp: Fingerprint,
    pub stamp: u64,
    // The bucket in which it ends, and the second in which its share ends.
    pub bucket: Bucket,
    pub second: Second,
    pub ghost short: { second.0 ≤ top32 },
}

impl Ticket {
    // The class of its deliverer.
    pub fn class(self) -> Class
        ensures { result ≡ class_of self.who }
    {
        Class::from(self.who)
    }
}
