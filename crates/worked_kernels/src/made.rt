//! What kernels show that are made of numbers.

/// The kernel of 0, as the image I with the empty script B.
pub const FIRST_NUMBER: &str = "\
$ 0 run --bare I B 4096 2
1 out32 0080 3c6ef35f
end steps 2
$ 0 run --wedge I B 4096 2
1 out32 0080 3c6ef35f
end steps 2
";
