//! Numbers in hexadecimal, with lower-case digits and leading zeros.

ghost use Rattle.std.specs.Prelude.{◌≡◌, ◌<◌};
ghost use Rattle.run_trace.specs.Text.{hex_digit, hex2, hex4, hex8};

/// The digit of a number below 16.
pub fn hex_digit(n: u8) -> u8
    requires { n < 16 }
    ensures { result ≡ hex_digit n }
{
    if n < 10 { n + 48 } else { n + 87 }
}

/// Both digits of a number of 8 bits, the high one first.
pub fn hex2(n: u8) -> [u8; 2]
    ensures { result ≡ hex2 n }
{
    [hex_digit(n / 16), hex_digit(n % 16)]
}

/// All digits of a number of 16 bits, the highest first.
pub fn hex4(n: u16) -> [u8; 4]
    ensures { result ≡ hex4 n }
{
    let [a, b] = hex2((n / 256) as u8);
    let [c, d] = hex2((n % 256) as u8);
    [a, b, c, d]
}

/// All digits of a number of 32 bits, the highest first.
pub fn hex8(n: u32) -> [u8; 8]
    ensures { result ≡ hex8 n }
{
    let [a, b, c, d] = hex4((n / 65536) as u16);
    let [e, f, g, h] = hex4((n % 65536) as u16);
    [a, b, c, d, e, f, g, h]
}
