//! What a CPU may do with the bytes of a page.

ghost use Rattle.std.specs.Prelude.{◌≡◌, ◌↔◌, IsTrue};
ghost use Rattle.gh_base.specs.Access.{access_of_bits, IsWithin};

/// None 0, execute 1, write 2, read 4, and their sums but for 3: the numbers of the Linux drivers.
#[derive(Clone, Copy, Debug, PartialEq, Eq)]
pub struct Access(pub u8);

impl Access {
    pub const NONE: Access = Access(0);

    pub const ALL: Access = Access(7);

    /// The access of a number; none for 3 (write and execute without read) and above 7.
    pub const fn of_bits(bits: u8) -> Option<Access>
        ensures { result ≡ access_of_bits bits }
    {
        if bits == 3 || bits > 7 {
            None
        } else {
            Some(Access(bits))
        }
    }

    /// Whether `wider` has every bit that this has.
    pub const fn within(self, wider: Access) -> bool
        ensures { IsTrue result ↔ IsWithin self.0 wider.0 }
    {
        self.0 & wider.0 == self.0
    }
}
