//! What an order of a script's lines gives, as a law for whoever takes turns.
ghost use Rattle.std.specs.Prelude.{List};
ghost use Rattle.vx_base.specs.declared.call.Call.{Call};
ghost use Rattle.vx_grammar.specs.NextLines.{AlwaysHasNextLine};
ghost use Rattle.vx_grammar.specs.Orders.{HasOrder};

/// Where the lines have an order, nobody waits for ever: however many each session has answered, some session's next line can come
/// as long as a line is left.
pub fn order_law()
    ensures { (lines : List (List Call)) → HasOrder lines → AlwaysHasNextLine lines }
{}
