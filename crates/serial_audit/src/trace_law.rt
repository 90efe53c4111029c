ghost use Rattle.serial_audit.specs.Trace.{TraceIsEnough};

/// The lines of a trace are enough: on every store that agrees with the serial one on them the activation commits as the
/// same step, with the same trace and the same printed bytes (docs/MODEL.md, "A trace"). It calls nothing.
pub fn a_trace_is_enough()
    ensures { TraceIsEnough }
{}
