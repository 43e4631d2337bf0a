// Typed networks of texts.

use net_syntax::TypedNet;
use net_text::read_net;
use net_types::check_types;
use std::alloc::Global;

/// The network of a file's text with its types; `None` if the text or its types are refused.
pub fn network(alloc: Global, text: &str) -> Option<Box<TypedNet>> {
    match read_net(alloc, text.as_bytes()) {
        Ok((input, net)) => match check_types(alloc, input, net) {
            Ok(net) => Box::new(alloc, net).ok(),
            Err(fault) => {
                drop(fault);
                None
            }
        },
        Err(_fault) => None,
    }
}
