// Laws of an access that isn't permitted. They call nothing.
ghost use Rattle.activations.specs.Serving.{ServingStarts, ServedGoesOn, LinesAreCounted};

/// Wherever the serving of an access begins: too many lines, a page that can't be read, nobody who holds what is asked for, or
/// a contest.
pub fn serving_starts()
    ensures { ServingStarts }
{}

/// A served access whose row takes effect is the desk's instruction.
pub fn served_goes_on()
    ensures { ServedGoesOn }
{}

/// The lines that a row would have written are counted from what is held of its pages, and not over all that is held.
pub fn lines_are_counted()
    ensures { LinesAreCounted }
{}
