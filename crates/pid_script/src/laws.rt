//! Laws of the line table.
ghost use Rattle.std.specs.Prelude.{◌≡◌};
ghost use Rattle.pid_types.specs.declared.call.Call.{Call};
ghost use Rattle.pid_script.specs.{Lines.{Fits, line_of}, Reading.{parsed}};
ghost use Rattle.pid_script.specs.declared.line.Line.TheVariants as says;

/// Each call's line says that call.
#[tactic(auto, using(crate::proofs::Read::tables))]
pub fn lines_say_their_calls()
    ensures { (c : Call) → Fits c → parsed (line_of c) ≡ says.Call c }
{}
