//! Routes and their methods.
ghost use Rattle.std.specs.Prelude.{◌≡◌};
ghost use Rattle.reg_entries.specs.Routes.{methods_of, method_text};

/// A route of the registry (OCI Distribution Specification 1.1, "Endpoints").
#[derive(Clone, Copy, Debug, PartialEq, Eq)]
pub enum Route {
    Base,
    Blob,
    Manifest,
    Uploads,
    Upload,
    Tags,
}

/// A method that a route may have (RFC 9110, section 9.3; RFC 5789).
#[derive(Clone, Copy, Debug, PartialEq, Eq)]
pub enum Method {
    Delete,
    Get,
    Head,
    Patch,
    Post,
    Put,
}

impl Route {
    /// The methods of the route, in the order of their names.
    pub fn methods(self) -> &'static [Method]
        ensures { result.now ≡ methods_of self }
    {
        match self {
            Route::Base | Route::Tags => &[Method::Get, Method::Head],
            Route::Blob => &[Method::Delete, Method::Get, Method::Head],
            Route::Manifest => &[Method::Delete, Method::Get, Method::Head, Method::Put],
            Route::Uploads => &[Method::Post],
            Route::Upload => &[
                Method::Delete,
                Method::Get,
                Method::Head,
                Method::Patch,
                Method::Put,
            ],
        }
    }
}

impl Method {
    /// The name of the method, as a request has it.
    pub fn text(self) -> &'static str
        ensures { result.now ≡ method_text self }
    {
        match self {
            Method::Delete => "DELETE",
            Method::Get => "GET",
            Method::Head => "HEAD",
            Method::Patch => "PATCH",
            Method::Post => "POST",
            Method::Put => "PUT",
        }
    }
}
