//! What is known of the texts of strategies, for all fit rules. The law is the contract of a call that does nothing.
ghost use Rattle.std.specs.Prelude.{◌≡◌, ◌<◌, ◌^◌, length, Ok};
ghost use Rattle.io_ports.specs.Lines.{lines_of};
ghost use Rattle.rules_model.specs.declared.rules.Rules.{Rules};
ghost use Rattle.rules_model.specs.Fit.{IsFit};
ghost use Rattle.strategy.specs.declared.nodes.Strategy.{Strategy};
ghost use Rattle.strategy.specs.Reading.{AreSound, strategy_of};
ghost use Rattle.strategy.specs.Writing.{AreReadable, strategy_text};

/// Reading the text of a strategy gives the strategy back, where its positions are sound and have the number 1, its
/// ranks are at most 65,535, its edges lead to its nodes, and their moves are read back as themselves.
pub fn reading_gives_back()
    ensures { (rules : Rules) (s : Strategy) → IsFit rules → AreSound rules s.nodes → AreReadable rules s.nodes
        → length s.nodes < 2 ^ 64 → strategy_of rules (lines_of (strategy_text rules s)) ≡ Ok s }
{}
