ghost use Rattle.std.specs.Prelude.{◌≡◌, ◌≤◌, ◌<◌, ◌-◌, ◌^◌, ◌++◌, ℕ, List, [], length, min, take};

/// The bytes that spell an image, which are given piece by piece. So an image can be written that was never in memory as a whole.
pub trait ImageSource {
    /// The bytes that are still to come.
    ghost left: { Self → List ℕ };

    /// The number of bytes that are still to come, or the greatest `u64` if there are more.
    fn length(&self) -> u64
        ensures { result ≡ min (length (left self.now)) (2 ^ 64 - 1) };

    /// Writes the next bytes to the front of `out`, and returns how many. It writes none only if `out` has no room for any, or none is
    /// left.
    fn piece(&mut self, out: &mut [u8]) -> usize
        ensures within { result ≤ length out.old }
        ensures room { length out.new ≡ length out.old }
        ensures gives { left self.old ≡ take result out.new ++ left self.new }
        ensures some { 0 < length out.old → result ≡ 0 → left self.old ≡ [] };
}

/// An image whose bytes are in memory.
#[derive(Drop)]
pub struct ImageBytes<'a> {
    left: &'a [u8],
}

impl<'a> ImageBytes<'a> {
    ghost use Rattle.std.specs.Prelude.{◌≡◌};

    /// The image that these bytes spell.
    pub fn new(bytes: &'a [u8]) -> Self
        ensures { result.left.now ≡ bytes.now }
    {
        ImageBytes { left: bytes }
    }
}

impl<'a> ImageSource for ImageBytes<'a> {
    ghost left = { λ s. s.left.now };

    fn length(&self) -> u64 {
        self.left.len() as u64
    }

    fn piece(&mut self, out: &mut [u8]) -> usize {
        let count = self.left.len().min(out.len());
        out[..count].copy_from_slice(&self.left[..count]);
        self.left = &self.left[count..];
        count
    }
}

/// The bytes of one source, and then those of another.
#[derive(Drop)]
pub struct Chain<A: ImageSource, B: ImageSource> {
    first: A,
    second: B,
}

impl<A: ImageSource, B: ImageSource> Chain<A, B> {
    ghost use Rattle.std.specs.Prelude.{◌≡◌};

    /// The two, one after the other.
    pub fn new(first: A, second: B) -> Self
        ensures { result ≡ record { first = first; second = second } }
    {
        Chain { first, second }
    }
}

impl<A: ImageSource, B: ImageSource> ImageSource for Chain<A, B> {
    ghost use Rattle.std.specs.Prelude.{◌++◌};

    ghost left = { λ s. A.left s.first ++ B.left s.second };

    fn length(&self) -> u64 {
        self.first.length().saturating_add(self.second.length())
    }

    fn piece(&mut self, out: &mut [u8]) -> usize {
        let count = self.first.piece(out);
        if self.first.length() > 0 {
            return count;
        }
        count + self.second.piece(&mut out[count..])
    }
}
