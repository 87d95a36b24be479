// Names are made from bytes, told as bytes, and compared here and nowhere else.
ghost use Rattle.std.specs.Prelude.{◌≡◌, ◌<◌, ◌≤◌, Decides};
ghost use Rattle.words.specs.Names.{name_bytes, Named, true_bytes, fail_bytes};

use crate::name::Name;

impl Name {
    // The name of these bytes; none if there are none or more than twelve.
    pub fn of(spelled: &[u8]) -> Option<Name>
        ensures { Named spelled.now result }
    {
        let count = spelled.len();
        if count == 0 || count > 12 {
            return None;
        }
        let mut bytes = [0u8; 12];
        bytes[..count].copy_from_slice(spelled);
        Some(Name {
            bytes,
            count: count as u8,
        })
    }

    // The name `true`.
    pub fn truth() -> Name
        ensures { name_bytes result ≡ true_bytes }
    {
        Name::of(b"true").unwrap()
    }

    // The name `fail`.
    pub fn failure() -> Name
        ensures { name_bytes result ≡ fail_bytes }
    {
        Name::of(b"fail").unwrap()
    }

    pub fn spelling(&self) -> &[u8]
        ensures { result.now ≡ name_bytes self.now }
    {
        &self.bytes[..usize::from(self.count)]
    }
}

// Whether two names are the same: both have the same bytes, and as many.
pub fn same_name(a: &Name, b: &Name) -> bool
    ensures { Decides result (name_bytes a.now ≡ name_bytes b.now) }
{
    a == b
}
