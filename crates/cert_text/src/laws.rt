//! What is known of the texts of certificates. The law is the contract of a call that does nothing.
ghost use Rattle.std.specs.Prelude.{◌≡◌, ℕ, Bool, List, Ok};
ghost use Rattle.io_ports.specs.Lines.{lines_of};
ghost use Rattle.game_play.specs.Played.{Played, story};
ghost use Rattle.stipulation.specs.declared.cert.Step.{Step};
ghost use Rattle.cert_text.specs.Reading.{cert_of};
ghost use Rattle.cert_text.specs.Writing.{HoldsIn, cert_text};

/// Reading the text of a certificate with a game for which it holds, as a selfmate or a helpmate within 6 moves or
/// fewer, gives the certificate back.
pub fn written_certificates_are_read_back()
    ensures { (g : Played) (n : ℕ) (help : Bool) (steps : List Step) → HoldsIn g n steps
        → cert_of g.rules (story g) (lines_of (cert_text help steps)) ≡ Ok (record { steps = steps }) }
{}
