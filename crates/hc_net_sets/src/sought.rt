//! What is sought: the numbers of an address, and which of them may stand where.
ghost use Rattle.std.specs.Prelude.{◌≡◌, ◌≤◌, ◌<◌};
ghost use Rattle.hc_net_sets.specs.Sought.{base_of, count_of, fits_at, low_part, number_at, separator_of, zeros_fit};

/// How many bytes an IPv4 address has.
pub const BYTES: u32 = 4;

/// How many groups an IPv6 address has.
pub const GROUPS: u32 = 8;

/// How many values a byte of an address has.
pub const BYTE_VALUES: u128 = 256;

/// How many values a group of an address has.
pub const GROUP_VALUES: u128 = 65_536;

/// IPv4 addresses are bytes with dots between them, and IPv6 addresses groups with colons.
#[derive(Clone, Copy)]
pub enum Family {
    Four,
    Six,
}

impl Family {
    /// How many numbers an address has.
    pub fn count(self) -> u32
        ensures value { result ≡ count_of self }
        ensures most { result ≤ GROUPS }
    {
        match self {
            Family::Four => BYTES,
            Family::Six => GROUPS,
        }
    }

    /// How many values a number has.
    fn base(self) -> u128
        ensures { result ≡ base_of self }
    {
        match self {
            Family::Four => BYTE_VALUES,
            Family::Six => GROUP_VALUES,
        }
    }

    /// The byte between two numbers.
    pub fn separator(self) -> u8
        ensures { result ≡ separator_of self }
    {
        match self {
            Family::Four => b'.',
            Family::Six => b':',
        }
    }

    /// The number at a place of an address; the last number has place 0.
    fn number_at(self, place: u32, whole: u128) -> u32
        requires { place < GROUPS }
        ensures { result ≡ number_at self place whole }
    {
        (whole / self.base().pow(place) % self.base()) as u32
    }
}

/// A network's address, the mask under which others are the same, and how many groups stand behind `::`.
#[derive(Clone, Copy)]
pub struct Sought {
    pub family: Family,
    pub own: u128,
    pub mask: u128,
    pub behind: u32,
}

/// The last groups of an address, so many of them.
fn low_part(whole: u128, count: u32) -> u128
    requires { count ≤ GROUPS }
    ensures { result ≡ low_part count whole }
{
    if count < GROUPS {
        whole % GROUP_VALUES.pow(count)
    } else {
        whole
    }
}

impl Sought {
    /// The network's number at the place.
    pub fn own_at(&self, place: u32) -> u32
        requires { place < GROUPS }
        ensures { result ≡ number_at self.now.family place self.now.own }
    {
        self.family.number_at(place, self.own)
    }

    /// The mask of the number at the place.
    pub fn mask_at(&self, place: u32) -> u32
        requires { place < GROUPS }
        ensures { result ≡ number_at self.now.family place self.now.mask }
    {
        self.family.number_at(place, self.mask)
    }

    /// The number may stand at the place.
    pub fn fits(&self, place: u32, number: u32) -> bool
        requires { place < GROUPS }
        ensures { result ≡ fits_at self.now place number }
    {
        let mask = self.mask_at(place);
        number & mask == self.own_at(place) & mask
    }

    /// `::` may stand where so many numbers are left: at least one is in its place, and zeros may stand there.
    pub fn zeros_fit(&self, left: u32) -> bool
        requires left { left ≤ GROUPS }
        requires behind { self.now.behind < GROUPS }
        ensures { result ≡ zeros_fit self.now left }
    {
        if self.behind >= left {
            return false;
        }
        let behind = GROUP_VALUES.pow(self.behind);
        let count = left - self.behind;
        let own = low_part(self.own / behind, count);
        let mask = low_part(self.mask / behind, count);
        0 & mask == own & mask
    }
}
