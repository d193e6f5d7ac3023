//! The tables of the two lines, as the code reads them.

ghost use Rattle.std.specs.Prelude.{nat_lt, IsTrue};
ghost use Rattle.std.specs.List.{list_all};

/// The functions at bit level, in the order of the left line.
#[derive(Clone, Copy)]
pub enum Function {
    F1,
    F2,
    F3,
    F4,
    F5,
}

impl Function {
    ghost use Rattle.std.specs.Prelude.{◌≡◌};
    ghost use Rattle.ots_ripemd.specs.Rounds.{function_of};

    /// What it makes of three words.
    #[inline(always)]
    pub fn of(self, x: u32, y: u32, z: u32) -> u32
        ensures { result ≡ function_of self x y z }
    {
        match self {
            Function::F1 => x ^ y ^ z,
            Function::F2 => (x & y) | (!x & z),
            Function::F3 => (x | !y) ^ z,
            Function::F4 => (x & z) | (y & !z),
            Function::F5 => x ^ (y | !z),
        }
    }
}

/// Sixteen steps of a line, with one function and one constant: the place of the word that each
/// reads, and by how many bits it rotates.
pub struct Round {
    pub function: Function,
    pub constant: u32,
    pub places: [usize; 16],
    pub turns: [u32; 16],
    pub ghost places_in_block: { IsTrue (list_all (λ place. nat_lt place 16) places) },
}

/// The rounds of a line, one after another.
pub struct Line {
    pub first: Round,
    pub second: Round,
    pub third: Round,
    pub fourth: Round,
    pub fifth: Round,
}

/// The left line.
pub const LEFT: Line = Line {
    first: Round {
        function: Function::F1,
        constant: 0x0000_0000,
        places: [0, 1, 2, 3, 4, 5, 6, 7, 8, 9, 10, 11, 12, 13, 14, 15],
        turns: [11, 14, 15, 12, 5, 8, 7, 9, 11, 13, 14, 15, 6, 7, 9, 8],
    },
    second: Round {
        function: Function::F2,
        constant: 0x5a82_7999,
        places: [7, 4, 13, 1, 10, 6, 15, 3, 12, 0, 9, 5, 2, 14, 11, 8],
        turns: [7, 6, 8, 13, 11, 9, 7, 15, 7, 12, 15, 9, 11, 7, 13, 12],
    },
    third: Round {
        function: Function::F3,
        constant: 0x6ed9_eba1,
        places: [3, 10, 14, 4, 9, 15, 8, 1, 2, 7, 0, 6, 13, 11, 5, 12],
        turns: [11, 13, 6, 7, 14, 9, 13, 15, 14, 8, 13, 6, 5, 12, 7, 5],
    },
    fourth: Round {
        function: Function::F4,
        constant: 0x8f1b_bcdc,
        places: [1, 9, 11, 10, 0, 8, 12, 4, 13, 3, 7, 15, 14, 5, 6, 2],
        turns: [11, 12, 14, 15, 14, 15, 9, 8, 9, 14, 5, 6, 8, 6, 5, 12],
    },
    fifth: Round {
        function: Function::F5,
        constant: 0xa953_fd4e,
        places: [4, 0, 5, 9, 7, 12, 2, 10, 14, 1, 3, 8, 11, 6, 15, 13],
        turns: [9, 15, 5, 11, 6, 8, 13, 12, 5, 12, 13, 14, 11, 8, 5, 6],
    },
};

/// The right line.
pub const RIGHT: Line = Line {
    first: Round {
        function: Function::F5,
        constant: 0x50a2_8be6,
        places: [5, 14, 7, 0, 9, 2, 11, 4, 13, 6, 15, 8, 1, 10, 3, 12],
        turns: [8, 9, 9, 11, 13, 15, 15, 5, 7, 7, 8, 11, 14, 14, 12, 6],
    },
    second: Round {
        function: Function::F4,
        constant: 0x5c4d_d124,
        places: [6, 11, 3, 7, 0, 13, 5, 10, 14, 15, 8, 12, 4, 9, 1, 2],
        turns: [9, 13, 15, 7, 12, 8, 9, 11, 7, 7, 12, 7, 6, 15, 13, 11],
    },
    third: Round {
        function: Function::F3,
        constant: 0x6d70_3ef3,
        places: [15, 5, 1, 3, 7, 14, 6, 9, 11, 8, 12, 2, 10, 0, 4, 13],
        turns: [9, 7, 15, 11, 8, 6, 6, 14, 12, 13, 5, 14, 13, 13, 7, 5],
    },
    fourth: Round {
        function: Function::F2,
        constant: 0x7a6d_76e9,
        places: [8, 6, 4, 1, 3, 11, 15, 0, 5, 12, 2, 13, 9, 7, 10, 14],
        turns: [15, 5, 8, 11, 14, 14, 6, 14, 6, 9, 12, 9, 12, 5, 15, 8],
    },
    fifth: Round {
        function: Function::F1,
        constant: 0x0000_0000,
        places: [12, 15, 10, 4, 1, 5, 8, 7, 6, 2, 13, 14, 0, 3, 9, 11],
        turns: [8, 5, 12, 9, 12, 5, 14, 6, 8, 13, 6, 5, 15, 13, 11, 11],
    },
};
