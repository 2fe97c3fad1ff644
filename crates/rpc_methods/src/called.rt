//! Methods that call an object by its handle.

ghost use Rattle.std.specs.Prelude.{◌≡◌, IfNone, IfSome};
ghost use Rattle.rpc_items.specs.Meanings.{calls_after, calls_by};
ghost use Rattle.rpc_items.specs.Methods.{after_front, invoke_proxy};
ghost use Rattle.rpc_items.specs.declared.methods.Meaning.TheVariants as meanings;

use crate::names::INVOKE_PROXY;

/// The most digits of a handle.
const MOST_DIGITS: usize = 19;

/// The handle that digits say, and the method behind their slash.
#[tactic(auto, using(crate::proofs::Handles::handles))]
fn handle_and_method(text: &str) -> Option<(u64, &str)>
    ensures some { IfSome result (λ c. calls_by 0 0 text.now ≡ meanings.Calls c.0 c.1.now) }
    ensures none { IfNone result (calls_by 0 0 text.now ≡ meanings.Unknown) }
{
    let mut handle = 0;
    for (count, byte) in text.as_bytes().iter().enumerate() {
        match *byte {
            b'/' if 0 < count => return Some((handle, &text[count + 1..])),
            b'0'..=b'9' if count < MOST_DIGITS => {
                handle = handle * 10 + u64::from(*byte - b'0');
            }
            _ => return None,
        }
    }
    None
}

/// The handle that a method calls, and the method of its object.
#[tactic(auto, using(crate::proofs::Fronts::stripped))]
pub(crate) fn called(method: &str) -> Option<(u64, &str)>
    ensures some { IfSome result (λ c. calls_after (after_front invoke_proxy method.now) ≡ meanings.Calls c.0 c.1.now) }
    ensures none { IfNone result (calls_after (after_front invoke_proxy method.now) ≡ meanings.Unknown) }
{
    handle_and_method(method.strip_prefix(INVOKE_PROXY)?)
}
