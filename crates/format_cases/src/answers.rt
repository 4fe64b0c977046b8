// What reading bytes answers, as a number.
use fields::refusal::Refusal;
use std::process::Abort;

/// The number of the refusal; 0 where the bytes are read.
pub fn number(read: Result<(), Refusal>) -> u8 {
    read.map_or_else(u8::from, |()| 0)
}

/// Compares the answer to each case with the expected one; a case has its name first.
pub fn each_is_answered<T: Copy, F: Fn(T) -> u8>(
    rt: &impl Abort,
    cases: &[(&str, T, u8)],
    answer: F,
)
    requires { F.IsAlwaysCallable answer }
{
    for (name, given, expected) in cases {
        assert_eq!(rt; answer(*given), *expected, "{}", *name);
    }
}
