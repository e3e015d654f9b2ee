//! Which encoding symbols determine a block of up to ten source symbols, and whether their values
//! contradict each other, by a rank count that shares no code with the library but the random
//! generator.
use raptorq::rng::rand;

// The numbers of ten source symbols (RFC 6330, sections 5.3.3.3 and 5.6).
const L: usize = 27;

const S: usize = 7;

const H: usize = 10;

const W: usize = 17;

const P: usize = 10;

const J: u32 = 254;

const B: usize = 10;

// What `v` stays below for each degree (section 5.3.5.2); W - 2 is the greatest degree.
const DEGREES: [u32; 16] = [
    0, 5243, 529531, 704294, 791675, 844104, 879057, 904023, 922747, 937311, 948962, 958494,
    966438, 973160, 978921, 983914,
];

// The L coefficients of the intermediate symbols, and then up to five octets of the value.
type Equation = [u8; 32];

// Twice an octet.
fn double(octet: u8) -> u8 {
    octet.wrapping_shl(1) ^ if octet & 128 != 0 { 29 } else { 0 }
}

// A product of octets, a bit of the left one after another.
fn product(left: u8, right: u8) -> u8 {
    let mut left = left;
    let mut power = right;
    let mut sum = 0;
    for _ in 0..8 {
        sum ^= if left & 1 == 1 { power } else { 0 };
        left >>= 1;
        power = double(power);
    }
    sum
}

// An octet to the power of 254, its inverse: 2 and 4 and so on to 128.
fn inverse(octet: u8) -> u8 {
    let mut square = octet;
    let mut power = 1;
    for _ in 0..7 {
        square = product(square, square);
        power = product(power, square);
    }
    power
}

// Changes the coefficient at an index.
fn flip(equation: &mut Equation, index: usize) {
    equation[index % L] ^= 1;
}

// LDPC equation m (section 5.3.3.3).
fn ldpc_equation(m: usize) -> Equation {
    let mut equation = [0; 32];
    for i in 0..B {
        let step = 1 + i / S;
        for turn in 0..3 {
            if (i + turn * step) % S == m {
                flip(&mut equation, i);
            }
        }
    }
    flip(&mut equation, B + m % S);
    flip(&mut equation, W + m % P);
    flip(&mut equation, W + (m % S + 1) % P);
    equation
}

// The entry of the matrix MT at an HDPC equation and a column.
fn mt(h: usize, column: usize) -> u8 {
    if column >= L - H - 1 {
        let mut power = 1;
        for _ in 0..h {
            power = double(power);
        }
        return power;
    }
    let first = rand(column as u32 + 1, 6, 10);
    let second = (first + rand(column as u32 + 1, 7, 9) + 1) % 10;
    u8::from(first as usize == h || second as usize == h)
}

// HDPC equation h: MT times GAMMA, whose entry at (i, j) is alpha to the power of i - j.
fn hdpc_equation(h: usize) -> Equation {
    let mut equation = [0; 32];
    let mut sum = 0;
    for i in 0..L - H {
        let column = L - H - 1 - i;
        sum = double(sum) ^ mt(h, column);
        equation[column] = sum;
    }
    flip(&mut equation, (L - H) + h % H);
    equation
}

// The degree of `v` (section 5.3.5.2).
fn degree(v: u32) -> u32 {
    for d in 1..16 {
        if v < DEGREES[d] {
            return d as u32;
        }
    }
    15
}

// The equation of an internal symbol id (sections 5.3.5.3 and 5.3.5.4). Of the eleven values of the
// walk over the P PI symbols one is passed over.
fn symbol_equation(id: u32) -> Equation {
    let y = (10267 * (J + 1)).wrapping_add(id.wrapping_mul(53591 + 997 * J));
    let degree = degree(rand(y, 0, 1 << 20));
    let step = 1 + rand(y, 1, 16);
    let mut index = rand(y, 2, 17);
    let mut equation = [0; 32];
    for _ in 0..degree {
        flip(&mut equation, index as usize);
        index = index.wrapping_add(step) % 17;
    }
    let count = if degree < 4 { 2 + rand(id, 3, 2) } else { 2 };
    let step = 1 + rand(id, 4, 10);
    let mut index = rand(id, 5, 11);
    for _ in 0..count {
        if index == 10 {
            index = index.wrapping_add(step) % 11;
        }
        flip(&mut equation, W + index as usize);
        index = index.wrapping_add(step) % 11;
    }
    equation
}

// Adds a multiple of a row, a bit of the scalar after another.
fn add(rest: &mut Equation, row: &Equation, scalar: u8) {
    let mut power = *row;
    let mut scalar = scalar;
    for _ in 0..8 {
        let mask = if scalar & 1 == 1 { 255 } else { 0 };
        scalar >>= 1;
        for i in 0..32 {
            rest[i] ^= power[i] & mask;
            power[i] = double(power[i]);
        }
    }
}

/// Equations of a block, of which none is a sum of multiples of the others.
#[derive(Clone, Copy, Drop)]
pub struct Basis {
    // Each stands at the column of its first coefficient, a 1.
    rows: [Equation; 27],
    count: u32,
    is_contradictory: bool,
}

impl Basis {
    /// The LDPC and HDPC equations, and those of the padding behind `source_symbols` symbols (K).
    /// `None` where they repeat each other.
    pub fn new(source_symbols: u32) -> Option<Basis> {
        let mut basis = Basis {
            rows: [[0; 32]; 27],
            count: 0,
            is_contradictory: false,
        };
        for m in 0..S {
            basis.take(&ldpc_equation(m));
        }
        for h in 0..H {
            basis.take(&hdpc_equation(h));
        }
        for id in source_symbols..10 {
            basis.take(&symbol_equation(id));
        }
        if basis.count.saturating_add(source_symbols) == 27 {
            Some(basis)
        } else {
            None
        }
    }

    /// Takes the equation of an encoding symbol of a block of `source_symbols` symbols (K).
    pub fn add(&mut self, source_symbols: u32, esi: u32) {
        self.add_with_value(source_symbols, esi, &[]);
    }

    /// Takes it with the symbol's value: five octets of it, and zeros for those that aren't given.
    pub fn add_with_value(&mut self, source_symbols: u32, esi: u32, value: &[u8]) {
        let padding = if esi < source_symbols {
            0
        } else {
            10u32.saturating_sub(source_symbols)
        };
        let mut equation = symbol_equation(esi.wrapping_add(padding));
        for i in 0..value.len().min(32 - L) {
            equation[L + i] = value[i];
        }
        self.take(&equation);
    }

    /// Whether the equations determine the intermediate symbols.
    pub fn is_whole(&self) -> bool {
        self.count == 27
    }

    /// Whether no intermediate symbols solve all equations that were taken.
    pub fn is_contradictory(&self) -> bool {
        self.is_contradictory
    }

    // Takes an equation in, where its coefficients aren't a sum of multiples of those here. Where
    // they are and the value isn't, it contradicts the equations here.
    fn take(&mut self, equation: &Equation) {
        let mut rest = *equation;
        for column in 0..L {
            let scalar = rest[column];
            if scalar != 0 && self.rows[column][column] == 0 {
                add(&mut self.rows[column], &rest, inverse(scalar));
                self.count = self.count.saturating_add(1);
                return;
            }
            if scalar != 0 {
                let row = self.rows[column];
                add(&mut rest, &row, scalar);
            }
        }
        for i in L..32 {
            self.is_contradictory |= rest[i] != 0;
        }
    }
}
