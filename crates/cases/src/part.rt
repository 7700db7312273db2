// Parts of bytes and of sheets. Where there is no such place, the part is the whole.

pub(crate) fn before<T>(s: &[T], place: usize) -> &[T] {
    s.get(..place).unwrap_or(s)
}

pub(crate) fn behind<T>(s: &[T], place: usize) -> &[T] {
    s.get(place..).unwrap_or(s)
}
