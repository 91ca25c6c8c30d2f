//! What holds of every stream.
ghost use Rattle.std.specs.Prelude.{◌≡◌, ℕ, List, [], ◌∷◌, ◌++◌, Option, Some, Err, IsUtf8};
ghost use Rattle.std.specs.List.{flat_map};
ghost use Rattle.websocket.specs.FrameHeader.{IsHeader, IsBytes, encode_header};
ghost use Rattle.websocket.specs.declared.protocol.frame.header.FrameHeader.{FrameHeader};
ghost use Rattle.jup_http.specs.declared.breach.Breach.{Breach};
ghost use Rattle.jup_http.specs.declared.frame.Message.{Message};
ghost use Rattle.jup_http.specs.Frames.{longest_head, most_fields, longest_message, longest_sent, after_bytes, frame_of};
ghost use Rattle.jup_http.specs.declared.texts.CharPart.TheVariants as CharPart;
ghost use Rattle.jup_http.specs.Streams.{Told, broken, between, tells, Sent, wire, AreTaken};

use crate::{LONGEST_HEAD, LONGEST_MESSAGE, LONGEST_SENT, MOST_FIELDS};

/// The constants are the numbers that the definitions name.
pub fn limits_are_stated()
    ensures head { LONGEST_HEAD ≡ longest_head }
    ensures fields { MOST_FIELDS ≡ most_fields }
    ensures message { LONGEST_MESSAGE ≡ longest_message }
    ensures sent { LONGEST_SENT ≡ longest_sent }
{}

/// Frames that may come, one after the other, bring the payloads of their messages, and what their control frames report, in order.
pub fn frames_arrive()
    ensures { (pending next : Option Message) (fs : List Sent) (told : List Told) (rest : List ℕ) → AreTaken pending fs told next
        → tells (between pending) (flat_map wire fs ++ rest) ≡ told ++ tells (between next) rest }
{}

/// A text that is UTF-8 is taken whole, byte by byte.
pub fn utf8_is_taken()
    ensures { (bs : List ℕ) → IsUtf8 bs → after_bytes (Some CharPart.Whole) bs ≡ Some CharPart.Whole }
{}

/// A header that breaks a rule is reported at its last byte, and nothing after it.
pub fn bad_headers_are_refused()
    ensures { (pending : Option Message) (h : FrameHeader) (len : ℕ) (breach : Breach) (rest : List ℕ) → IsHeader h len → IsBytes (encode_header h len)
        → frame_of pending h len ≡ Err breach → tells (between pending) (encode_header h len ++ rest) ≡ broken breach ∷ [] }
{}
