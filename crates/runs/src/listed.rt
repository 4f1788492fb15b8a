// A list of runs, whether it stands as words or as bytes.
ghost use Rattle.std.specs.Prelude.{ℕ, ◌≡◌, ◌^◌, ◌<◌, List, length, get_or};

pub(crate) trait Runs: Copy {
    // The list.
    ghost list: { Self → List ℕ };

    // How many runs it has: no more than fit into memory.
    fn count(&self) -> usize
        ensures { (result ≡ length (list self.now)) × (result < 2 ^ 61) };

    // Run i.
    fn run_at(&self, i: usize) -> u64
        requires { i < length (list self.now) }
        ensures { result ≡ get_or (list self.now) i 0 };
}

impl Runs for &[u64] {
    ghost list = { λ words. words.now };

    fn count(&self) -> usize {
        self.len()
    }

    fn run_at(&self, i: usize) -> u64 {
        self[i]
    }
}
