// The kinds of short circuits.
ghost use Rattle.std.specs.Prelude.{◌≡◌, length};
ghost use Rattle.fd_fault.specs.Kinds.{grounds_of, nodes_of};

/// What a short circuit joins to ground at a bus.
#[derive(Clone, Copy)]
pub enum Kind {
    /// Nodes 1, 2 and 3.
    Lll,
    /// Node 1.
    Lg1,
    /// Node 2.
    Lg2,
    /// Node 3.
    Lg3,
}

impl Kind {
    /// The numbers of the nodes, in order.
    pub fn nodes(self) -> &'static [u8]
        ensures { result.now ≡ nodes_of self }
    {
        match self {
            Kind::Lll => &[1, 2, 3],
            Kind::Lg1 => &[1],
            Kind::Lg2 => &[2],
            Kind::Lg3 => &[3],
        }
    }

    // As many times the number of ground.
    pub(crate) fn grounds(self) -> &'static [u8]
        ensures { result.now ≡ grounds_of self }
    {
        match self {
            Kind::Lll => &[0, 0, 0],
            Kind::Lg1 => &[0],
            Kind::Lg2 => &[0],
            Kind::Lg3 => &[0],
        }
    }

    // How many they are.
    pub(crate) fn phases(self) -> u32
        ensures { result ≡ length (nodes_of self) }
    {
        match self {
            Kind::Lll => 3,
            Kind::Lg1 => 1,
            Kind::Lg2 => 1,
            Kind::Lg3 => 1,
        }
    }
}
