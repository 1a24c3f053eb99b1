//! What `help` prints.

/// The commands, with what each reads and prints, the options, and where the pages are.
pub const HELP: &str = "\
Vengine plays and judges chess variants, and its answers are proved.

usage: vengine [--variants FILE] [--threads N] [COMMAND]

Options come before the command.
  --variants FILE       adds the variants of FILE, a variants.ini, to those that are built in
  --threads N           lets a session and suite work with N threads, 1 to 64; 1 without it

Sessions read lines, and answer each, until quit or the end of the input.
  uci                   speaks the Universal Chess Interface; so does vengine without a command
  xboard                speaks the Chess Engine Communication Protocol (CECP)

These read a game: the variant's name, startpos or a FEN, and lines of moves.
  moves                 prints the legal moves
  status                prints the result, and the position as a FEN
  checkers              prints the squares of the pieces that attack the king of the side to move
  perft N               prints how many lines of N moves there are; N from 1 to 9
  pnmate N              prints the least number of moves, up to N, that wins by force; N from 1 to 100
  keys N                prints each first move that wins by force within N moves; N from 1 to 20
  stipulate self N      prints a selfmate within N moves with its certificate; N from 1 to 6
  stipulate help N      prints a helpmate within N moves with its certificate; N from 1 to 6

These read a game, a line with a goal, and a text for that goal.
  check                 reads a strategy, and prints wins or its first fault
  stipulate check       reads a certificate, and prints holds or its first fault

This reads mate problems, one a line.
  suite                 prints which are solved, and within how many moves

These read nothing.
  variants              prints each variant, and whether it is accepted
  rules NAME            prints the options and the pieces of a variant
  reach WORD SQUARE [OWN [ENEMY]]
                        prints where a piece of this Betza word goes
  generate NAME START N
                        prints a game of at most N random moves; START chooses the game
  help, --help          prints this text
  --version             prints the version

The pages: docs/COMMANDS.md of the repository, or man vengine.
";
