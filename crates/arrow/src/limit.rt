// How many requests a group accepts.
// Assumes nothing.
ghost use Rattle.std.specs.Prelude.{◌≡◌};
ghost use Rattle.arrow.specs.Clauses.{LawOverRuns};
ghost use Rattle.arrow.specs.Example.{WorkedRun};
ghost use Rattle.arrow.specs.Facts.{FactsOfRuns, RefusalsAreListed};
ghost use Rattle.arrow.specs.Mask.{WordOfWaiting};
ghost use Rattle.arrow.specs.Rules.{request_limit};

// The number of requests after which a group refuses the next. With it no count of a run comes to the end of its 32 bits.
pub const REQUEST_LIMIT: u32 = 1_000_000;

// The limit of requests; its contract also names the law over every run of the calls, and what else holds of every run.
pub fn request_limit() -> u32
    ensures answer { result ≡ request_limit }
    ensures law { LawOverRuns }
    ensures facts { FactsOfRuns }
    ensures refusals { RefusalsAreListed }
    ensures waiting { WordOfWaiting }
    ensures example { WorkedRun }
{
    REQUEST_LIMIT
}
