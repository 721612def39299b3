//! Link ends, slot by slot.
ghost use Rattle.std.specs.Prelude.{◌≤◌};

use link_ends::LinkEnd;
use std::process::Abort;
use xs_base::Token;

// What comes to a link end or is asked of it, and the answer that is wanted.
enum Step {
    Send(u32, bool),
    Credit,
    Arrive(Token),
    Take(Option<Token>),
}

fn goes(rt: &impl Abort, gap: u32, steps: &[Step])
    requires { 1 ≤ gap }
{
    let mut end = LinkEnd::new(gap);
    for (n, step) in steps.iter().enumerate() {
        let as_wanted = match *step {
            Step::Send(slot, allowed) => {
                let can = end.can_send(slot);
                if can {
                    end.sent(slot);
                }
                can == allowed
            }
            Step::Credit => {
                end.credit();
                true
            }
            Step::Arrive(token) => {
                end.arrive(token);
                true
            }
            Step::Take(token) => {
                let first = end.first();
                first == token && end.pop() == token
            }
        };
        assert!(rt; as_wanted, "step {n}");
    }
}

#[test]
fn a_window_of_eight(rt: HostRuntime) {
    goes(
        &rt,
        4,
        &[
            // A credit without a token outstanding is dropped.
            Step::Credit,
            Step::Send(0, true),
            Step::Send(3, false),
            Step::Send(4, true),
            Step::Send(8, true),
            Step::Send(12, true),
            Step::Send(16, true),
            Step::Send(20, true),
            Step::Send(24, true),
            Step::Send(28, true),
            Step::Send(32, false),
            Step::Credit,
            Step::Send(32, true),
            Step::Send(36, false),
        ],
    );
}

#[test]
fn a_ninth_token_is_dropped(rt: HostRuntime) {
    goes(
        &rt,
        1,
        &[
            Step::Take(None),
            Step::Arrive(Token::Byte(10)),
            Step::Arrive(Token::Ctrl(1)),
            Step::Arrive(Token::Byte(12)),
            Step::Arrive(Token::Byte(13)),
            Step::Arrive(Token::Byte(14)),
            Step::Arrive(Token::Byte(15)),
            Step::Arrive(Token::Byte(16)),
            Step::Arrive(Token::Byte(17)),
            Step::Arrive(Token::Byte(18)),
            Step::Take(Some(Token::Byte(10))),
            Step::Take(Some(Token::Ctrl(1))),
            Step::Arrive(Token::Byte(19)),
            Step::Take(Some(Token::Byte(12))),
            Step::Take(Some(Token::Byte(13))),
            Step::Take(Some(Token::Byte(14))),
            Step::Take(Some(Token::Byte(15))),
            Step::Take(Some(Token::Byte(16))),
            Step::Take(Some(Token::Byte(17))),
            Step::Take(Some(Token::Byte(19))),
            Step::Take(None),
        ],
    );
}

#[test]
fn a_link_end_may_be_made_without_a_gap(rt: HostRuntime) {
    let mut end = LinkEnd::default();
    if end.can_send(7) {
        end.sent(7);
    }
    assert!(rt; !end.can_send(7) && end.can_send(8));
}
