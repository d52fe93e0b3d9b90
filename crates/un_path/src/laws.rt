//! What certificates show, and what the replies are, each as what a function ensures that does nothing.

ghost use Rattle.un_path.specs.Laws.{CertificatesShow, PathsAreCertified, PathReplyLaw, CheckReplyLaw, SamePathLaw, SameCheckLaw};

/// A valid certificate shows that its walk costs least, or that there is none.
pub fn certificates_show()
    ensures { CertificatesShow }
{}

/// Where labels are asked for, what a query for a path finds is a valid certificate.
pub fn paths_are_certified()
    ensures { PathsAreCertified }
{}

/// The reply to a query for a path has the best walk, or none where there is none, and the least costs.
pub fn path_reply()
    ensures { PathReplyLaw }
{}

/// The reply to a query for a check says exactly whether the certificate is valid.
pub fn check_reply()
    ensures { CheckReplyLaw }
{}

/// Over two grounds with the same areas and the same entries at the reached nodes the reply to a query for a path is the same.
pub fn same_path()
    ensures { SamePathLaw }
{}

/// Over two such grounds the reply to a query for a check is the same.
pub fn same_check()
    ensures { SameCheckLaw }
{}
