//! The bytes of an instruction, kept in the row of a table itself.

/// At most 12 bytes, with zeros after them.
pub struct Spelled {
    pub all: [u8; 12],
    pub len: usize,
}

impl Spelled {
    /// The bytes without the zeros.
    pub fn as_slice(&self) -> &[u8] {
        match self.all.as_slice().get(..self.len) {
            Some(bytes) => bytes,
            None => &[],
        }
    }
}

macro_rules! bytes {
    ($($byte:literal),*) => {
        crate::spelled::Spelled {
            all: crate::spelled::bytes!(@ $($byte)* 0 0 0 0 0 0 0 0 0 0 0 0),
            len: 0 $(+ crate::spelled::bytes!(@one $byte))*,
        }
    };
    (@one $byte:literal) => { 1 };
    (
        @ $a:literal $b:literal $c:literal $d:literal $e:literal $f:literal $g:literal $h:literal
        $i:literal $j:literal $k:literal $l:literal $($more:literal)*
    ) => {
        [$a, $b, $c, $d, $e, $f, $g, $h, $i, $j, $k, $l]
    };
}

pub(crate) use bytes;
