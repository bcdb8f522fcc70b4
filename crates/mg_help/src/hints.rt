//! What is told behind words that are not understood.

/// The line that stands behind the line of words that are not understood: the words of the tool that the
/// first of them names, or where help is found.
pub fn hint(words: &[String]) -> &'static str {
    let [tool, ..] = words else {
        return "try: mg --help\n";
    };
    match tool.as_str() {
        "build" => "usage: mg build COLLECTION NAME [--budget BYTES]; try: mg --help\n",
        "query" => "usage: mg query NAME; try: mg --help\n",
        "decode" => "usage: mg decode NAME; try: mg --help\n",
        "scan" => "usage: mg scan COLLECTION; try: mg --help\n",
        "phrase" => "usage: mg phrase NAME; try: mg --help\n",
        "wild" => "usage: mg wild NAME; try: mg --help\n",
        "migrate" => "usage: mg migrate NAME NEW; try: mg --help\n",
        "merge" => "usage: mg merge FIRST SECOND NEW; try: mg --help\n",
        "check" => "usage: mg check NAME; try: mg --help\n",
        "trial" => "usage: mg trial SEED DOCS; try: mg --help\n",
        _ => "try: mg --help\n",
    }
}
