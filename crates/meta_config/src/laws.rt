//! Laws of the definitions. The calls do nothing; their clauses are the laws.
ghost use Rattle.meta_config.specs.Laws.{BytesMeanOne, MetasReadBack, TextsFit, TextsTellApart, UrlsHaveTheirSites};

/// A text spells a site by the grammar of URLs exactly where it is the site that reading finds.
pub fn urls_have_their_sites()
    ensures { UrlsHaveTheirSites }
{}

/// The canonical text of a meta-configuration that `read_meta` or `usual` gives declares that very meta-configuration,
/// has at most `MAX_META_TEXT` bytes, and is the text of no other one. Bytes declare at most one, so what `read_meta` answers to
/// that text is that meta-configuration, or that memory is out.
pub fn metas_read_back()
    ensures read_back { MetasReadBack }
    ensures fit { TextsFit }
    ensures tell_apart { TextsTellApart }
    ensures one { BytesMeanOne }
{}
