//! Services and their servers. In this first form a service leads to one server.
#![tactic(auto)]

mod first_form;
mod only;
mod url;

pub use first_form::is_first_form;
pub use only::only_server;
pub use px_base::Server;
pub use url::{ServerUrl, UrlFault, read_server_url};
