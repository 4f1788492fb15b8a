// A run is one number of 64 bits, as the reference's `UnitigColor`: its first vertex in the low 24, its coordinate in the high 40.
ghost use Rattle.std.specs.Prelude.{◌≡◌, ◌-◌, ◌<◌, ◌≤◌};
ghost use Rattle.runs.specs.Words.{offset, coordinate, pack, worker_of, place_of, coordinate_of};

// The first vertex of a run. `as` here and below loses nothing, which is proved; `try_from` would add a case that can't come.
pub fn offset(w: u64) -> u32
    ensures { result ≡ offset w }
{
    (w % 16777216) as u32
}

// What it refers to.
pub fn coordinate(w: u64) -> u64
    ensures { (result ≡ coordinate w) × (result < 1099511627776) }
{
    w / 16777216
}

// The worker that a coordinate names.
pub fn worker(c: u64) -> u32
    ensures { result ≡ worker_of c }
{
    (c % 256) as u32
}

// The place of the record that it names among the worker's.
pub fn place(c: u64) -> u64
    ensures { result ≡ place_of c }
{
    c / 256
}

// The coordinate of a worker's record.
pub fn coordinate_of(worker: u32, place: u32) -> u64
    ensures { result ≡ coordinate_of worker place }
{
    u64::from(worker) + 256 * u64::from(place)
}

// A run of both. The reference's `UnitigColor::new`.
pub(crate) fn pack(offset: u32, coordinate: u64) -> u64
    requires { (offset < 16777216) × (coordinate < 1099511627776) }
    ensures { result ≡ pack offset coordinate }
{
    u64::from(offset) + 16777216 * coordinate
}

// A run that ended at `end`, begun there from the other side.
pub(crate) fn flip(w: u64, n: u32, end: u32) -> u64
    requires { (end ≤ n) × (n < 16777216) }
    ensures { result ≡ pack (n - end) (coordinate w) }
{
    u64::from(n - end) + 16777216 * (w / 16777216)
}

// A run that ended where `next` begins, begun there from the other side of `top` vertices.
pub(crate) fn backed(w: u64, next: u64, top: u64) -> u64
    requires { (offset next ≤ top) × (top < 16777216) }
    ensures { result ≡ pack (top - offset next) (coordinate w) }
{
    w - w % 16777216 + (top - next % 16777216)
}
