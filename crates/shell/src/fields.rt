// The words of a line, and parts of a list.
ghost use Rattle.std.specs.Prelude.{◌≡◌, ◌-◌, ◌++◌, not, take, drop};
ghost use Rattle.std.specs.Borrow.{LendsBoth, sem};
ghost use denote.Array.{Array};
ghost use Rattle.std.specs.List.{position};
ghost use Rattle.shell.specs.Fields.{is_blank, is_line_end, starts_comment, field_at};

// Where a word stands: from `start` up to `end`.
#[derive(Clone, Copy)]
pub struct Field {
    pub start: usize,
    pub end: usize,
}

// A space, a tab or a carriage return.
fn is_blank(b: u8) -> bool
    ensures { result ≡ is_blank b }
{
    b == b' ' || b == b'\t' || b == b'\r'
}

// What ends a line.
pub fn is_line_end(b: u8) -> bool
    ensures { result ≡ is_line_end b }
{
    b == b'\n'
}

// What a comment starts with, which goes on to the line's end.
pub fn starts_comment(b: u8) -> bool
    ensures { result ≡ starts_comment b }
{
    b == b'#'
}

// The elements from `start` up to `end`, as far as there are any.
pub fn part<T>(xs: &[T], start: usize, end: usize) -> &[T]
    ensures { result.now ≡ take (end - start) (drop start xs.now) }
{
    let end = end.min(xs.len());
    &xs[start.min(end)..end]
}

// The first `count` elements, or as many as there are.
pub fn front<T>(xs: &[T], count: usize) -> &[T]
    ensures { result.now ≡ take count xs.now }
{
    &xs[..count.min(xs.len())]
}

// The same and the elements behind, lent to be written.
pub fn split_front<T>(xs: &mut [T], count: usize) -> (&mut [T], &mut [T])
    ensures front { result.0.now ≡ take count xs.old }
    ensures behind { result.1.now ≡ drop count xs.old }
    ensures* writes_back { sem 𝓛 (LendsBoth (Array T.row 0) (Array T.row 0) (Array T.row 0) xs.entry result ◌++◌) }
{
    let end = count.min(xs.len());
    xs.split_at_mut(end)
}

// Where the first byte stands that is no blank.
fn word_start(text: &[u8]) -> Option<usize>
    ensures { result ≡ position (λ b. not (is_blank b)) text.now }
{
    text.iter().position(|b| !is_blank(*b))
}

// Where the first blank stands.
fn word_end(text: &[u8]) -> Option<usize>
    ensures { result ≡ position is_blank text.now }
{
    text.iter().position(|b| is_blank(*b))
}

// The first word from `at` on: behind the blanks there.
pub fn next_field(line: &[u8], at: usize) -> Option<Field>
    ensures { result ≡ field_at line.now at }
{
    let start = at + word_start(line.get(at..)?)?;
    let word = &line[start..];
    let end = start + word_end(word).unwrap_or(word.len());
    Some(Field { start, end })
}
