// One channel of a run of interleaved samples, read in order through a view that holds the caller's samples and copies
// nothing. The view is an iterator, and `read` does its work on a plain slice.
#![tactic(auto)]

ghost use Rattle.std.specs.Prelude.{◌≡◌, ◌-◌, length};
ghost use Rattle.std.specs.Iterator.{at_most};
ghost use Rattle.view.specs.Channel.{count_of, reading_of, step_of, view_of, moved_on};

// A sample as it is in the run, or none, and the position after it.
#[derive(Clone, Copy, Debug, PartialEq, Eq, Hash)]
pub struct Step {
    pub reading: Option<i32>,
    pub at: usize,
}

// The caller's samples, a channel (a is 0) and the position of the next reading.
#[derive(Clone, Copy, Debug)]
pub struct View<'a> {
    pub samples: &'a [i32],
    pub channel: usize,
    pub at: usize,
}

// How many samples of a channel a run of `len` has: one in each round of three, and one more where the channel is within
// what is left over.
fn count(len: usize, channel: usize) -> usize
    ensures { result ≡ count_of len channel }
{
    if channel > 2 {
        0
    } else {
        len / 3 + usize::from(channel < len % 3)
    }
}

// What stands at a position of a channel, and the position after it: a caller has a slice and two numbers, and no view. Below
// the count no product wraps.
pub fn read(samples: &[i32], channel: usize, at: usize) -> Step
    ensures { result ≡ step_of samples.now channel at }
{
    if at < count(samples.len(), channel) {
        let sample = samples[3 * at + channel];
        Step {
            reading: Some(sample),
            at: at + 1,
        }
    } else {
        Step { reading: None, at }
    }
}

impl<'a> View<'a> {
    // A view of one channel at a position.
    pub fn new(samples: &'a [i32], channel: usize, at: usize) -> Self
        ensures { result ≡ view_of samples.entry channel at }
    {
        View {
            samples,
            channel,
            at,
        }
    }

    // The position of the next reading.
    pub fn position(&self) -> usize
        ensures { result ≡ self.now.at }
    {
        self.at
    }
}

// The samples of the channel from the view's position on. With none left the view stays where it is.
impl Iterator for View<'_> {
    type Item = i32;

    ghost next_gives = { λ v r w. (r ≡ reading_of v.samples.now v.channel v.at) × (w ≡ moved_on v) };

    ghost remaining = { λ v. at_most (count_of (length v.samples.now) v.channel - v.at) };

    fn next(&mut self) -> Option<i32> {
        let step = read(self.samples, self.channel, self.at);
        self.at = step.at;
        step.reading
    }
}
