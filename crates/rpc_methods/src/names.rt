//! Names of methods.

ghost use Rattle.std.specs.Prelude.{◌≡◌};
ghost use Rattle.rpc_items.specs.Methods.{abort_pages, cancel_request, invoke_proxy, next_page, progress, release_object};

/// Gives a request up.
pub const CANCEL_REQUEST: &str = "$/cancelRequest";

/// Reports on a request.
pub const PROGRESS: &str = "$/progress";

/// Asks for the next page of a sequence.
pub const NEXT_PAGE: &str = "$/enumerator/next";

/// Gives a sequence up.
pub const ABORT_PAGES: &str = "$/enumerator/abort";

/// Releases a handle.
pub const RELEASE_OBJECT: &str = "$/releaseMarshaledObject";

/// Calls an object by its handle: the handle, a slash and the object's method follow.
pub const INVOKE_PROXY: &str = "$/invokeProxy/";

/// The names are those of the rules.
pub fn names_are_those_of_the_rules()
    ensures cancel_request { CANCEL_REQUEST.now ≡ cancel_request }
    ensures progress { PROGRESS.now ≡ progress }
    ensures next_page { NEXT_PAGE.now ≡ next_page }
    ensures abort_pages { ABORT_PAGES.now ≡ abort_pages }
    ensures release_object { RELEASE_OBJECT.now ≡ release_object }
    ensures invoke_proxy { INVOKE_PROXY.now ≡ invoke_proxy }
{}
