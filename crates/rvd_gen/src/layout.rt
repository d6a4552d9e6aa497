ghost use Rattle.std.specs.Prelude.{◌≡◌, ◌≤◌};
ghost use Rattle.rvd_gen.specs.Layout.{code_start, code_size, strings_start, strings_size, function_at, string_at};

/// The most functions of an image.
pub const MAX_FUNCTIONS: u32 = 30_000;

/// The address of the code, and of its first instruction, the entry.
pub const CODE_START: u32 = 0x0001_0000;

/// The address of the strings.
pub const STRINGS_START: u32 = 0x0020_0000;

/// The bytes of the code of n functions.
pub fn code_size(n: u32) -> u32
    requires { n ≤ MAX_FUNCTIONS }
    ensures { result ≡ code_size n }
{
    32 * n
}

/// The bytes of n strings.
pub fn strings_size(n: u32) -> u32
    requires { n ≤ MAX_FUNCTIONS }
    ensures { result ≡ strings_size n }
{
    16 * n
}

/// The address of function i, the first being function 0.
pub fn function_at(i: u32) -> u32
    requires { i ≤ MAX_FUNCTIONS }
    ensures { result ≡ function_at i }
{
    CODE_START + code_size(i)
}

/// The address of string i, the first being string 0.
pub fn string_at(i: u32) -> u32
    requires { i ≤ MAX_FUNCTIONS }
    ensures { result ≡ string_at i }
{
    STRINGS_START + strings_size(i)
}
