// A place in the bytes of a script.
ghost use Rattle.std.specs.Prelude.{◌+◌, ◌^◌, ◌≤◌, length};

// What is left to read, and the number of its first line. Unlike a sheet's, the last line may have no line feed.
#[derive(Drop)]
pub struct Cursor<'a> {
    pub(crate) rest: &'a [u8],
    pub(crate) line: usize,
    ghost few: { line + length rest.now ≤ 2 ^ 63 },
}
