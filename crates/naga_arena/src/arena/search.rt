//! Searches for the first value that passes a test.
ghost use Rattle.std.specs.Prelude.{◌≡◌, ◌<◌, length, IfSome, IfNone, All, false, position};
ghost use Rattle.std.specs.Fn.{FnReturnsAt, FnReturnsAtPair};
ghost use Rattle.naga_arena.specs.Arena.{IsFirstYes};

/// Returns the index of the first value for which `test` returns `true`, or `None` if there is no such value.
///
/// Precondition: `test` can be called with any argument.
pub(super) fn passing_position<T, F: Fn(&T) -> bool>(values: &[T], test: &F) -> Option<usize>
    requires { F.IsAlwaysCallable test.now }
    ensures none { IfNone result (All (λ x. FnReturnsAt F.Fn test.now x false) values.now) }
    ensures first { IfSome result (IsFirstYes (FnReturnsAt F.Fn test.now) values.now) }
    ensures bound { IfSome result (λ index. index < length values.now) }
{
    for (i, value) in values.iter().enumerate() {
        if test(value) {
            return Some(i);
        }
    }
    None
}

/// Returns the index of the first value that passes `test`, or `None` if there is no such value.
///
/// A value passes if `test`, called with the value and with `other` in this order, returns `true`. Precondition: `test`
/// can be called with any arguments.
pub(super) fn passing_position_with<T, F: Fn(&T, &T) -> bool>(
    values: &[T],
    other: &T,
    test: &F,
) -> Option<usize>
    requires { F.IsAlwaysCallable test.now }
    ensures none { IfNone result
        (All (λ x. FnReturnsAtPair F.Fn test.now x other.now false) values.now) }
    ensures first { IfSome result
        (IsFirstYes (λ x. FnReturnsAtPair F.Fn test.now x other.now) values.now) }
    ensures bound { IfSome result (λ index. index < length values.now) }
{
    for (i, value) in values.iter().enumerate() {
        if test(value, other) {
            return Some(i);
        }
    }
    None
}

/// Returns the index of the first value that is equal to `other`, or `None` if there is no such value.
pub(super) fn equal_position<T: PartialEq>(values: &[T], other: &T) -> Option<usize>
    ensures { result ≡ position (T.eq other.now) values.now }
{
    values.iter().position(|x| *other == *x)
}
